// Letters that are damaged, one for each reason.
use crate::Table;

// The booking of docs/RULES.md, as bytes.
pub const BOOKING: [u8; 16] = [0, 0, 0, 1, 1, 1, 0, 0, 0, 7, 1, 5, 0, 9, 1, 20];

impl<'a, P: Print> Table<'a, P> {
    // Parts of a letter one behind the other, and the digest of all of them.
    pub fn signed(&self, head: &[u8], body: &[u8], tail: &[u8]) -> anyhow::Result<Vec<u8>> {
        let mut out = Vec::with_capacity(self.heap, 1024)?;
        out.extend_from_slice(head)?;
        out.extend_from_slice(body)?;
        out.extend_from_slice(tail)?;
        let sum = digest::sha256(out.as_slice());
        out.extend_from_slice(&sum)?;
        Ok(out)
    }

    // A row for a letter of these parts.
    fn parts(&self, name: &str, head: &[u8], tail: &[u8]) -> anyhow::Result<()> {
        let bytes = self.signed(head, &BOOKING, tail)?;
        self.row(name, bytes.as_slice())
    }

    // A row for a letter whose byte at a place was raised.
    fn turned(&self, name: &str, at: usize) -> anyhow::Result<()> {
        let mut bytes = self.signed(&[66, 0, 1, 0, 0, 0, 7], &BOOKING, &[0, 0])?;
        if let Some(byte) = bytes.as_mut_slice().get_mut(at) {
            *byte = byte.wrapping_add(1);
        }
        self.row(name, bytes.as_slice())
    }

    pub fn damaged(&self) -> anyhow::Result<()> {
        let one = [66, 0, 1, 0, 0, 0, 7];
        self.parts("as it should be", &one, &[0, 0])?;
        self.parts("first byte 65", &[65, 0, 1, 0, 0, 0, 7], &[0, 0])?;
        let short = self.signed(&[66, 0, 0, 0, 0, 0, 0], &[], &[0])?;
        self.row("40 bytes", short.as_slice())?;
        self.row("no bytes", &[])?;
        self.turned("a byte of the entry turned", 20)?;
        self.turned("a byte of the digest turned", 56)?;
        self.counts()?;
        self.parts("how many tentative cut short", &one, &[0])?;
        let stamps = [66, 0, 0, 0, 0, 0, 0, 0, 1];
        self.parts("stamps cut short", &stamps, &[0; 63])?;
        self.parts("a byte before the digest", &one, &[0, 0, 0])?;
        let mut longer = self.signed(&one, &BOOKING, &[0, 0])?;
        longer.push(0)?;
        self.row("a byte behind the digest", longer.as_slice())
    }

    // More entries than a letter may have, and more than stand there.
    fn counts(&self) -> anyhow::Result<()> {
        let one = [66, 0, 1, 0, 0, 0, 7];
        let two = [66, 0, 2, 0, 0, 0, 7];
        self.parts("1,025 committed", &[66, 4, 1, 0, 0, 0, 7], &[0, 0])?;
        self.parts("1 committed, 1,024 tentative", &one, &[4, 0])?;
        let none_stands = "1 committed, 1,023 tentative of which none stands there";
        self.parts(none_stands, &one, &[3, 255])?;
        self.parts("no second entry", &two, &[])?;
        self.parts("second entry cut short", &two, &[0, 0, 0, 2, 1, 2, 0, 0])
    }
}
