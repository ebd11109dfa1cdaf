// What a replica is asked, answered in lines.
ghost use Rattle.std.specs.Prelude.{◌≡◌, ◌<◌, length, Some, MatchResult, nat_lt};
ghost use Rattle.std.specs.Option.{option_map};
ghost use Rattle.bookings.specs.Books.{book_of};
ghost use Rattle.bookings.specs.Plain.{plain_mark};
ghost use Rattle.bookings.specs.Refusals.{number_of};
ghost use Rattle.bookings.specs.declared.limits.TheConstants.{HUTS, NIGHTS};
ghost use Rattle.console.specs.Answers.{kind_name_of, standing_of};
ghost use Rattle.console.specs.Requests.{asked_mark, raw_mark};
ghost use Rattle.entry_log.specs.Logs.{all_of};
ghost use Rattle.entry_log.specs.Vectors.{vector_of};
ghost use Rattle.replica.specs.Views.{state_of};
ghost use Rattle.desk.specs.Answers.{AskedOk, GotRefused, got_in, night_told, noted_on, committed_at, opened_of, ServedBy, ServeRefused};

use bookings::book::Night;
use bookings::entry::{Entry, Mark};
use bookings::limits::INITIAL_BEDS;
use bookings::refusal::Refusal;
use console::answer::starts::Opened;
use console::answer::{Answer, Got, KindName, Standing};
use console::mark::RawMark;
use console::vector::RawVector;
use entry_log::vector::Vector;
use replica::replica::Replica;

// A hut's beds on a night.
pub fn night(replica: &Replica, hut: u64, night: u64) -> Result<Answer, Refusal>
    ensures { MatchResult result
        (λ a. (hut < HUTS) × (night < NIGHTS) × (a ≡ night_told (book_of (all_of (state_of replica.now).log)) hut night))
        (λ e. (number_of e ≡ 2) × ((hut < HUTS) × (night < NIGHTS) → ⊥)) }
{
    let found = replica.night(hut, night)?;
    // The replica has refused what is out of range: `try_from` would add an error that cannot come.
    Ok(night_told(hut as u8, night as u16, &found))
}

// A hut's beds on a night, if there are others than at first or any is booked.
pub fn noted(replica: &Replica, hut: u8, night: u16) -> Option<Answer>
    requires { (hut < HUTS) × (night < NIGHTS) }
    ensures { result ≡ noted_on (book_of (all_of (state_of replica.now).log)) hut night }
{
    // It is in range, as is required: no refusal is lost.
    let found = replica.night(u64::from(hut), u64::from(night)).ok()?;
    if found.beds == INITIAL_BEDS && found.booked == 0 {
        return None;
    }
    Some(night_told(hut, night, &found))
}

fn night_told(hut: u8, night: u16, found: &Night) -> Answer
    ensures { result ≡ Answer.Night hut night found.now.beds found.now.booked }
{
    Answer::Night {
        hut,
        night,
        beds: found.beds,
        booked: found.booked,
    }
}

// An entry of a log, of which the first `committed` are committed.
pub fn logged(place: usize, entry: &Entry, committed: usize) -> Answer
    ensures { result ≡ Answer.Logged place (raw_mark (plain_mark entry.now.mark)) (standing_of (nat_lt place committed)) (kind_name_of entry.now.kind) }
{
    Answer::Logged {
        place,
        mark: RawMark::from(entry.mark),
        standing: Standing::from(place < committed),
        kind: KindName::from(&entry.kind),
    }
}

// What the entry with a mark has got; refused where the mark is out of range (2) or not known (9).
pub fn got(replica: &Replica, mark: &RawMark) -> Result<Answer, Refusal>
    ensures { MatchResult result
        (λ a. AskedOk (asked_mark mark.now) × (got_in (state_of replica.now) (asked_mark mark.now) ≡ Some a))
        (λ e. GotRefused (state_of replica.now) (asked_mark mark.now) (number_of e)) }
{
    let known = mark.mark()?;
    let told = replica.got(&known)?;
    Ok(Answer::Got {
        mark: *mark,
        standing: Standing::from(told.committed),
        got: Got::from(&told.outcome),
    })
}

// What was committed, at which place, if there was something tentative.
pub fn committed(first: Option<Mark>, place: usize) -> Answer
    ensures { result ≡ committed_at place (option_map plain_mark first) }
{
    match first {
        Some(mark) => Answer::Inked {
            mark: RawMark::from(mark),
            place,
        },
        None => Answer::NothingTentative,
    }
}

// What a replica has.
pub fn have(replica: &Replica) -> Answer
    ensures { (v : Vector) × (result ≡ Answer.Have (length (state_of replica.now).log.committed) v)
        × (v.stamps ≡ vector_of (all_of (state_of replica.now).log)) }
{
    let summary = replica.summary();
    Answer::Have {
        committed: summary.committed,
        vector: summary.vector,
    }
}

// A guest with a slip is served; refused where the slip is out of range (2), or knows more than the replica (7).
pub fn served(replica: &Replica, slip: &RawVector) -> Result<Answer, Refusal>
    ensures { MatchResult result
        (λ a. ServedBy (state_of replica.now) slip.now.all a)
        (λ e. ServeRefused (state_of replica.now) slip.now.all (number_of e)) }
{
    let slip = slip.vector()?;
    let after = replica.serve(slip)?;
    Ok(Answer::Served { slip: after })
}

// What was opened, and how many bytes of its journal were cut off.
pub fn opened(replica: &Replica, cut: usize) -> Answer
    ensures { result ≡ opened_of (state_of replica.now) cut }
{
    let committed = replica.committed();
    let tentative = replica.entries().len().saturating_sub(committed);
    Answer::Opened {
        opened: Opened {
            hut: replica.hut(),
            committed,
            tentative,
            cut,
        },
    }
}
