// The book is brought back to a place of the log, and on to its end again.
ghost use Rattle.std.specs.Prelude.{◌≡◌, ◌≤◌, List, map, length, take};
ghost use Rattle.bookings.specs.Books.{book_of};
ghost use Rattle.bookings.specs.Plain.{PlainEntry, plain};
ghost use Rattle.bookings.specs.Ranges.{Each, InRange};
ghost use Rattle.bookings.specs.Views.{book_in};
ghost use Rattle.bookings.specs.declared.book.TheConstants.{CAPACITY};
ghost use Rattle.replica.specs.Steps.{SharesFront};

use bookings::book::Book;
use bookings::entry::Entry;

// Undoes the entries from a place on, the last first.
fn undo_to(book: &mut Book, place: usize)
    ensures { (es : List PlainEntry) → Each InRange es → book_in book.old ≡ book_of es → book_in book.new ≡ book_of (take place es) }
{
    while book.len() > place {
        book.undo();
    }
}

// Does the entries of a log from a place on, up to which the book has them done.
fn redo_from(book: &mut Book, log: &[Entry], place: usize)
    requires within { place ≤ length log.now }
    requires room { length log.now ≤ CAPACITY }
    requires done { book_in book.old ≡ book_of (take place (map plain log.now)) }
    ensures { book_in book.new ≡ book_of (map plain log.now) }
{
    for entry in &log[place..] {
        // The book has room for each entry of a log.
        let _ = book.apply(entry);
    }
}

// Brings a book on to a log, of which it has the entries up to a place done, and then perhaps others.
pub(crate) fn redo_log(book: &mut Book, log: &[Entry], place: usize)
    requires within { place ≤ length log.now }
    requires room { length log.now ≤ CAPACITY }
    requires front { SharesFront place (book_in book.old) (map plain log.now) }
    ensures { book_in book.new ≡ book_of (map plain log.now) }
{
    undo_to(book, place);
    redo_from(book, log, place);
}
