// Room in the log: its end is lent on, moved up by one, and its first place filled.
ghost use Rattle.std.specs.Prelude.{◌≡◌, ◌+◌, ◌-◌, ◌<◌, ◌≤◌, ◌++◌, length, vec_len, vec_capacity};
ghost use Rattle.std.specs.List.{insert};
ghost use Rattle.entry_log.specs.Room.{shifted, moved_to};

use bookings::entry::Entry;

// Moves each entry of the part up by one, over the last, and puts another first.
fn put_first(part: &mut [Entry], entry: Entry)
    requires { 0 < length part.old }
    ensures { part.new ≡ shifted part.old «entry» }
{
    part.rotate_right(1);
    part[0] = entry;
}

// Puts an entry at a place, over the one at `last`, and moves those from the place on to there up by one.
pub(crate) fn move_to(entries: &mut [Entry], place: usize, last: usize, entry: Entry)
    requires order { place ≤ last }
    requires within { last < length entries.old }
    ensures { entries.new ≡ moved_to entries.old place last «entry» }
{
    put_first(&mut entries[place..=last], entry);
}

// Puts an entry at a place, and moves what stood there and behind it up by one, into room that was reserved.
pub(crate) fn insert_at(entries: &mut Vec<Entry>, place: usize, entry: Entry)
    requires within { place ≤ vec_len entries.old }
    requires room { vec_len entries.old < vec_capacity entries.old }
    ensures items { entries.new.items ≡ insert entries.old.items place «entry» }
    ensures capacity { vec_capacity entries.new ≡ vec_capacity entries.old }
{
    let last = entries.len();
    entries.push_reserved(entry);
    move_to(entries.as_mut_slice(), place, last, entry);
}
