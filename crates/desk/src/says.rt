// What is told is written, in lines.
ghost use Rattle.std.specs.Prelude.{◌≡◌, ◌<◌, map, IfOk, OnOk};
ghost use Rattle.std.specs.Io.KnownBytes.{Appends};
ghost use Rattle.bookings.specs.Books.{book_of};
ghost use Rattle.bookings.specs.Plain.{plain};
ghost use Rattle.console.specs.declared.answer.Answer.TheVariants.{Take};
ghost use Rattle.desk.specs.Answers.{noted_on};
ghost use Rattle.desk.specs.Said.{line_of, line_if, texts, taking_of, outcome_line, out_line, takings_lines, nights_lines, huts_lines, book_lines, logged_line, log_lines, reply_lines};
ghost use Rattle.entry_log.specs.Logs.{all_of};
ghost use Rattle.replica.specs.Views.{state_of};

use crate::answers;
use crate::calls::Desk;
use crate::page::Page;
use crate::reply::Reply;
use bookings::entry::Entry;
use bookings::limits::{HUTS, NIGHTS};
use bookings::refusal::Refusal;
use console::answer::Answer;
use console::answer::letter::Letter;
use console::answer::letters::Taking;
use console::mark::RawMark;
use network::outcome::Outcome;
use replica::replica::Replica;
use std::io;
use std::io::{ErrorKind, Write};

pub fn say<D: Desk, W: Write>(out: &mut W, desk: &D, page: &Page, reply: Reply) -> io::Result<()>
    ensures { OnOk result (Appends (W.contents out.old) (W.contents out.new) (reply_lines (D.state desk.now) (D.came desk.now) (D.kept_out desk.now) page.now.bytes.items reply)) }
{
    match reply {
        Reply::Nothing => Ok(()),
        Reply::Line(answer) => say_line(out, answer),
        Reply::Letter => {
            let bytes = page.bytes();
            writeln!(out, "{}", Letter { bytes })
        }
        Reply::Takings => say_takings(out, desk.outcomes(), desk.rejected()),
        Reply::Book => say_book(out, lent(desk)?),
        Reply::Log => say_log(out, lent(desk)?),
    }
}

// The replica of a desk that is synced.
fn lent<D: Desk>(desk: &D) -> io::Result<&Replica>
    ensures { IfOk result (λ p. state_of p.now ≡ D.state desk.now) }
{
    desk.shown().ok_or(io::Error::from(ErrorKind::ResourceBusy))
}

fn say_line<W: Write>(out: &mut W, answer: Answer) -> io::Result<()>
    ensures { OnOk result (Appends (W.contents out.old) (W.contents out.new) (line_of answer)) }
{
    writeln!(out, "{answer}")
}

// A line for each entry of a letter, and the counts; or one for a letter that was damaged.
pub fn say_takings<W: Write>(
    out: &mut W,
    outcomes: &[Outcome],
    rejected: Option<usize>,
) -> io::Result<()>
    ensures { OnOk result (Appends (W.contents out.old) (W.contents out.new) (takings_lines outcomes.now rejected)) }
{
    let Some(rejected) = rejected else {
        let why = Refusal::Damaged;
        return say_taking(out, Taking::Rejected { why });
    };
    say_outcomes(out, outcomes)?;
    say_out(out, rejected)?;
    let skipped = outcomes
        .iter()
        .filter(|outcome| matches!(outcome, Outcome::Skipped(..)))
        .count();
    let taken = outcomes.len().saturating_sub(skipped);
    let counts = Taking::Counts {
        taken,
        skipped,
        rejected,
    };
    say_taking(out, counts)
}

fn say_taking<W: Write>(out: &mut W, taking: Taking) -> io::Result<()>
    ensures { OnOk result (Appends (W.contents out.old) (W.contents out.new) (line_of (Take taking))) }
{
    say_line(out, Answer::Take { taking })
}

fn say_outcomes<W: Write>(out: &mut W, outcomes: &[Outcome]) -> io::Result<()>
    ensures { OnOk result (Appends (W.contents out.old) (W.contents out.new) (texts outcome_line 0 outcomes.now)) }
{
    for outcome in outcomes {
        say_taking(out, taking(outcome))?;
    }
    Ok(())
}

// One line for all that are kept out, if there are any.
fn say_out<W: Write>(out: &mut W, rejected: usize) -> io::Result<()>
    ensures { OnOk result (Appends (W.contents out.old) (W.contents out.new) (out_line rejected)) }
{
    if rejected == 0 {
        return Ok(());
    }
    let why = Refusal::OutOfRange;
    say_taking(out, Taking::Rejected { why })
}

fn taking(outcome: &Outcome) -> Taking
    ensures { result ≡ taking_of outcome.now }
{
    match *outcome {
        Outcome::Committed { place, mark } => Taking::Committed {
            mark: RawMark::from(mark),
            // No `From` makes a usize of a u64; nothing is lost by `as`.
            place: place as usize,
        },
        Outcome::Tentative(mark) => Taking::Tentative {
            mark: RawMark::from(mark),
        },
        Outcome::Skipped(why, mark) => Taking::Skipped {
            why,
            mark: RawMark::from(mark),
        },
    }
}

// The nights of a hut that are not as at first.
fn say_nights<W: Write>(out: &mut W, replica: &Replica, hut: u8) -> io::Result<()>
    requires { hut < HUTS }
    ensures { OnOk result (Appends (W.contents out.old) (W.contents out.new) (nights_lines (book_of (all_of (state_of replica.now).log)) hut NIGHTS)) }
{
    for night in 0..NIGHTS as u16 {
        say_night(out, replica, hut, night)?;
    }
    Ok(())
}

fn say_night<W: Write>(out: &mut W, replica: &Replica, hut: u8, night: u16) -> io::Result<()>
    requires hut { hut < HUTS }
    requires night { night < NIGHTS }
    ensures { OnOk result (Appends (W.contents out.old) (W.contents out.new) (line_if (noted_on (book_of (all_of (state_of replica.now).log)) hut night))) }
{
    match answers::noted(replica, hut, night) {
        Some(answer) => say_line(out, answer),
        None => Ok(()),
    }
}

fn say_huts<W: Write>(out: &mut W, replica: &Replica) -> io::Result<()>
    ensures { OnOk result (Appends (W.contents out.old) (W.contents out.new) (huts_lines (book_of (all_of (state_of replica.now).log)) HUTS)) }
{
    for hut in 0..HUTS as u8 {
        say_nights(out, replica, hut)?;
    }
    Ok(())
}

fn say_book<W: Write>(out: &mut W, replica: &Replica) -> io::Result<()>
    ensures { OnOk result (Appends (W.contents out.old) (W.contents out.new) (book_lines (state_of replica.now))) }
{
    say_huts(out, replica)?;
    say_line(out, Answer::EndOfBook)
}

fn say_log<W: Write>(out: &mut W, replica: &Replica) -> io::Result<()>
    ensures { OnOk result (Appends (W.contents out.old) (W.contents out.new) (log_lines (state_of replica.now))) }
{
    say_entries(out, replica.entries(), replica.committed())?;
    say_line(out, Answer::EndOfLog)
}

fn say_entries<W: Write>(out: &mut W, entries: &[Entry], committed: usize) -> io::Result<()>
    ensures { OnOk result (Appends (W.contents out.old) (W.contents out.new) (texts (logged_line committed) 0 (map plain entries.now))) }
{
    for (place, entry) in entries.iter().enumerate() {
        say_line(out, answers::logged(place, entry, committed))?;
    }
    Ok(())
}
