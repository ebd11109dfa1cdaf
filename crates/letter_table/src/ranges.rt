// Entries with one number that is out of range, behind one that is not.
use crate::Table;
use crate::forms::BOOKING;

// Of the booking with the mark (1, 1), and of beds.
const CANCEL: [u8; 11] = [0, 0, 0, 2, 1, 2, 0, 0, 0, 1, 1];

const CHANGE: [u8; 17] = [0, 0, 0, 2, 1, 3, 0, 0, 0, 1, 1, 1, 5, 0, 9, 1, 20];

const BEDS: [u8; 11] = [0, 0, 0, 2, 1, 4, 5, 0, 9, 1, 255];

impl<'a, P: Print> Table<'a, P> {
    // A row for an entry whose byte at a place is another, the second of three that are committed.
    fn with(&self, name: &str, entry: &[u8], at: usize, value: u8) -> anyhow::Result<()> {
        let mut bytes = Vec::with_capacity(self.heap, 64)?;
        bytes.extend_from_slice(&BOOKING)?;
        bytes.extend_from_slice(entry)?;
        if let Some(byte) = bytes.as_mut_slice().get_mut(16usize.saturating_add(at)) {
            *byte = value;
        }
        let tail = [0, 0, 0, 3, 1, 2, 0, 0, 0, 1, 1, 0, 0];
        let whole = self.signed(&[66, 0, 3, 0, 0, 0, 7], bytes.as_slice(), &tail)?;
        self.row(name, whole.as_slice())
    }

    fn bookings(&self) -> anyhow::Result<()> {
        self.with("stamp 0", &BOOKING, 3, 0)?;
        self.with("hut 15", &BOOKING, 4, 15)?;
        self.with("hut 16", &BOOKING, 4, 16)?;
        self.with("kind 0", &BOOKING, 5, 0)?;
        self.with("kind 5", &BOOKING, 5, 5)?;
        self.with("5 choices", &BOOKING, 10, 5)?;
        self.with("choice of hut 16", &BOOKING, 11, 16)?;
        self.with("night 265", &BOOKING, 12, 1)?;
        self.with("night 521", &BOOKING, 12, 2)?;
        self.with("0 nights", &BOOKING, 14, 0)?;
        self.with("14 nights", &BOOKING, 14, 14)?;
        self.with("15 nights", &BOOKING, 14, 15)?;
        self.with("0 beds", &BOOKING, 15, 0)?;
        self.with("21 beds", &BOOKING, 15, 21)
    }

    fn others(&self) -> anyhow::Result<()> {
        self.with("cancel of stamp 1", &CANCEL, 9, 1)?;
        self.with("cancel of stamp 0", &CANCEL, 9, 0)?;
        self.with("cancel of hut 16", &CANCEL, 10, 16)?;
        self.with("change of stamp 1", &CHANGE, 9, 1)?;
        self.with("change of stamp 0", &CHANGE, 9, 0)?;
        self.with("change with 5 choices", &CHANGE, 11, 5)?;
        self.with("change to 21 beds", &CHANGE, 16, 21)?;
        self.with("0 beds of hut 5", &BEDS, 10, 0)?;
        self.with("beds of hut 16", &BEDS, 6, 16)?;
        self.with("beds for 0 nights", &BEDS, 9, 0)?;
        self.with("beds for 15 nights", &BEDS, 9, 15)
    }

    // A row for the second of three tentative entries, with nothing behind it.
    fn second(&self, name: &str, entry: &[u8]) -> anyhow::Result<()> {
        let mut bytes = Vec::with_capacity(self.heap, 128)?;
        bytes.extend_from_slice(&BOOKING)?;
        bytes.extend_from_slice(&[0; 64])?;
        let head = [66, 0, 0, 0, 0, 0, 7, 0, 3];
        let whole = self.signed(&head, bytes.as_slice(), entry)?;
        self.row(name, whole.as_slice())
    }

    // All bytes of an entry are read before a number in it is judged.
    fn tentative(&self) -> anyhow::Result<()> {
        let far = [0, 0, 0, 1, 16, 2, 0, 0, 0, 1, 1];
        self.second("a second tentative entry of hut 16", &far)?;
        self.second("without its last byte", &far[..10])?;
        self.second("without its kind", &far[..5])?;
        self.second("of kind 5", &[0, 0, 0, 1, 16, 5])?;
        let five = [0, 0, 0, 1, 16, 1, 0, 0, 0, 7, 5];
        self.second("with 5 choices", &five)?;
        self.second("without how many choices", &five[..10])?;
        let two = [0, 0, 0, 2, 1, 1, 0, 0, 0, 7, 2, 16, 0, 9, 1, 20, 5, 0, 9, 1];
        self.second("a choice of hut 16, the next one cut short", &two)
    }

    pub fn out_of_range(&self) -> anyhow::Result<()> {
        self.bookings()?;
        self.others()?;
        self.tentative()
    }
}
