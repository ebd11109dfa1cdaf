// Going over the entries of a letter.
ghost use Rattle.std.specs.Prelude.{◌≡◌, ◌+◌, [], ◌∷◌, MatchOption};
ghost use Rattle.std.specs.Iterator.{YieldsFirstBy, item_count};
ghost use Rattle.letters.specs.Items.{unread, committed_left, tentative_left, left, plain_item};

use super::{Item, Letter, Unread};
use crate::coded::Decoded;

impl<'a> Unread<'a> {
    // The next value. Where one cannot be read, which was found when the letter was opened, none is left.
    fn next<V: Decoded>(&mut self) -> Option<V>
        ensures next { MatchOption result
            ((unread V.reading self.old ≡ []) × (self.new.count ≡ 0))
            (λ v. (unread V.reading self.old ≡ V.plain v ∷ unread V.reading self.new) × (self.old.count ≡ self.new.count + 1)) }
    {
        let left = self.count.checked_sub(1)?;
        self.count = 0;
        let value = V::read(&mut self.reader).ok()?;
        self.count = left;
        Some(value)
    }
}

impl<'a> Letter<'a> {
    // How many entries are kept out: the first that is out of range, and those that the letter says come after it.
    pub fn kept_out(&self) -> usize
        ensures { result ≡ self.now.out }
    {
        usize::from(self.out)
    }

    fn next_committed(&mut self) -> Option<Item>
        ensures next { MatchOption result
            ((committed_left self.old ≡ []) × (committed_left self.new ≡ []))
            (λ i. committed_left self.old ≡ plain_item i ∷ committed_left self.new) }
        ensures others { tentative_left self.new ≡ tentative_left self.old }
        ensures out { self.new.out ≡ self.old.out }
    {
        let entry = self.committed.next()?;
        let place = self.place;
        self.place += 1;
        Some(Item::Committed { place, entry })
    }

    fn next_tentative(&mut self) -> Option<Item>
        ensures next { MatchOption result
            ((tentative_left self.old ≡ []) × (tentative_left self.new ≡ []))
            (λ i. tentative_left self.old ≡ plain_item i ∷ tentative_left self.new) }
        ensures others { committed_left self.new ≡ committed_left self.old }
        ensures out { self.new.out ≡ self.old.out }
    {
        self.tentative.next().map(Item::Tentative)
    }

    // The next entry of the letter, in its order.
    pub fn next(&mut self) -> Option<Item>
        ensures next { MatchOption result
            ((left self.old ≡ []) × (left self.new ≡ []))
            (λ i. left self.old ≡ plain_item i ∷ left self.new) }
        ensures out { self.new.out ≡ self.old.out }
    {
        // `or_else` was tried: where its closure is not called, the proof knows nothing of the `self` that it borrowed.
        match self.next_committed() {
            Some(item) => Some(item),
            None => self.next_tentative(),
        }
    }
}

// So that a `for` goes over the entries of a letter. `Letter::next` stands beside it, since it says besides that what is kept out stays the same.
impl<'a> Iterator for Letter<'a> {
    type Item = Item;

    ghost next_gives = { YieldsFirstBy plain_item left };

    ghost remaining = { item_count left };

    fn next(&mut self) -> Option<Item> {
        Letter::next(self)
    }
}
