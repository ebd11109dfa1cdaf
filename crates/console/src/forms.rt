// The form of each command: which numbers stand behind its verb.
ghost use Rattle.std.specs.Prelude.{◌≡◌, take};
ghost use Rattle.console.specs.Commands.{said_if, said_by, huts_of, at_of, book_of, cancel_of, change_of, beds_of, show_of, got_of, serve_of, letter_of, walk_of, lose_of, again_of, cut_of, stop_of};

use crate::command::Command;
use crate::language::alone;
use crate::mark::RawMark;
use crate::numbers::Numbers;
use crate::request::{RawChoice, RawChoices, Request};
use crate::vector::RawVector;
use crate::verb::Verb;
use bookings::limits::MAX_REHEARSAL_HUTS;

// The command of a verb and numbers, unless their count is wrong.
pub(crate) fn by_verb(verb: Verb, numbers: Numbers) -> Option<Command>
    ensures { said_if result ≡ said_by verb (take numbers.count numbers.all) }
{
    match verb {
        Verb::Huts => huts(numbers),
        Verb::At => at(numbers.as_slice()),
        Verb::Book => book(numbers.as_slice()),
        Verb::Cancel => cancel(numbers.as_slice()),
        Verb::Change => change(numbers.as_slice()),
        Verb::Beds => beds(numbers.as_slice()),
        Verb::Ink => alone(Command::Ink, numbers.as_slice()),
        Verb::Have => alone(Command::Have, numbers.as_slice()),
        Verb::Show => show(numbers.as_slice()),
        Verb::Line => alone(Command::Line, numbers.as_slice()),
        Verb::Got => got(numbers.as_slice()),
        Verb::Serve => serve(numbers.as_slice()),
        Verb::Letter => letter(numbers.as_slice()),
        Verb::Walk => walk(numbers.as_slice()),
        Verb::Lose => lose(numbers.as_slice()),
        Verb::Again => again(numbers.as_slice()),
        Verb::Cut => cut(numbers.as_slice()),
        Verb::Stop => stop(numbers.as_slice()),
        Verb::Help => alone(Command::Help, numbers.as_slice()),
    }
}

fn huts(numbers: Numbers) -> Option<Command>
    ensures { said_if result ≡ huts_of (take numbers.count numbers.all) }
{
    let count = numbers.as_slice().len();
    if count == 0 || count > MAX_REHEARSAL_HUTS {
        return None;
    }
    Some(Command::Huts { huts: numbers })
}

fn at(numbers: &[u64]) -> Option<Command>
    ensures { said_if result ≡ at_of numbers.now }
{
    match numbers {
        [hut] => Some(Command::At { hut: *hut }),
        _ => None,
    }
}

fn book(numbers: &[u64]) -> Option<Command>
    ensures { said_if result ≡ book_of numbers.now }
{
    let (guest, choices) = numbers.split_first()?;
    let choices = RawChoices::read(choices)?;
    let request = Request::Book {
        guest: *guest,
        choices,
    };
    Some(Command::Make { request })
}

fn cancel(numbers: &[u64]) -> Option<Command>
    ensures { said_if result ≡ cancel_of numbers.now }
{
    let (mark, behind) = RawMark::read(numbers)?;
    let request = Request::Cancel { mark };
    alone(Command::Make { request }, behind)
}

fn change(numbers: &[u64]) -> Option<Command>
    ensures { said_if result ≡ change_of numbers.now }
{
    let (mark, choices) = RawMark::read(numbers)?;
    let choices = RawChoices::read(choices)?;
    let request = Request::Change { mark, choices };
    Some(Command::Make { request })
}

fn beds(numbers: &[u64]) -> Option<Command>
    ensures { said_if result ≡ beds_of numbers.now }
{
    let (four, behind) = numbers.split_first_chunk()?;
    let supply = RawChoice::from(*four);
    let request = Request::Beds { supply };
    alone(Command::Make { request }, behind)
}

fn show(numbers: &[u64]) -> Option<Command>
    ensures { said_if result ≡ show_of numbers.now }
{
    match numbers {
        [] => Some(Command::Show),
        [hut, night] => Some(Command::ShowNight {
            hut: *hut,
            night: *night,
        }),
        _ => None,
    }
}

fn got(numbers: &[u64]) -> Option<Command>
    ensures { said_if result ≡ got_of numbers.now }
{
    let (mark, behind) = RawMark::read(numbers)?;
    alone(Command::Got { mark }, behind)
}

// As `may` and `add` of a slip: a helper would take the constructor to save one line.
fn serve(numbers: &[u64]) -> Option<Command>
    ensures { said_if result ≡ serve_of numbers.now }
{
    let slip = RawVector::read(numbers)?;
    Some(Command::Serve { slip })
}

fn letter(numbers: &[u64]) -> Option<Command>
    ensures { said_if result ≡ letter_of numbers.now }
{
    let (committed, stamps) = numbers.split_first()?;
    let vector = RawVector::read(stamps)?;
    Some(Command::Letter {
        committed: *committed,
        vector,
    })
}

// `walk`, `lose`, `again` and `stop` have two numbers each, under other names: a helper would hand out a pair to be named again.
fn walk(numbers: &[u64]) -> Option<Command>
    ensures { said_if result ≡ walk_of numbers.now }
{
    match numbers {
        [from, to] => Some(Command::Walk {
            from: *from,
            to: *to,
        }),
        _ => None,
    }
}

fn lose(numbers: &[u64]) -> Option<Command>
    ensures { said_if result ≡ lose_of numbers.now }
{
    match numbers {
        [from, to] => Some(Command::Lose {
            from: *from,
            to: *to,
        }),
        _ => None,
    }
}

fn again(numbers: &[u64]) -> Option<Command>
    ensures { said_if result ≡ again_of numbers.now }
{
    match numbers {
        [letter, to] => Some(Command::Again {
            letter: *letter,
            to: *to,
        }),
        _ => None,
    }
}

fn cut(numbers: &[u64]) -> Option<Command>
    ensures { said_if result ≡ cut_of numbers.now }
{
    match numbers {
        [letter, to, bytes] => Some(Command::Cut {
            letter: *letter,
            to: *to,
            bytes: *bytes,
        }),
        _ => None,
    }
}

fn stop(numbers: &[u64]) -> Option<Command>
    ensures { said_if result ≡ stop_of numbers.now }
{
    match numbers {
        [hut, bytes] => Some(Command::Stop {
            hut: *hut,
            bytes: *bytes,
        }),
        _ => None,
    }
}
