// A letter is taken: whatever its bytes are, each entry is taken or skipped in its turn.
ghost use Rattle.std.specs.Prelude.{◌≡◌, ◌<◌, ◌≤◌, Bool, true, false, map, length, is_ok, Ok, Err, vec_len, vec_capacity, MatchResult};
ghost use Rattle.journal.specs.History.{Kept};
ghost use Rattle.journal.specs.Keeping.{InStep, Moves, Fails, state_by, most_bytes};
ghost use Rattle.journal.specs.declared.trouble.Trouble.TheVariants.{Refused, Failed};
ghost use Rattle.letters.specs.Items.{plain_item, left};
ghost use Rattle.letters.specs.Letters.{read_letter};
ghost use Rattle.network.specs.Items.{refusal_of, takes, items_taken};
ghost use Rattle.network.specs.Taking.{plain_outcome, outcome_of, outcomes_of, take_bytes, Reports};
ghost use Rattle.network.specs.declared.outcome.Outcome.TheVariants.{Skipped};

use crate::outcome::Outcome;
use crate::report::Report;
use bookings::entry::Mark;
use journal::fault::Fault;
use journal::journal::Journal;
use journal::keeper::Keeper;
use journal::trouble::Trouble;
use letters::letter::{Item, Letter};

// What came of an entry with a mark: the outcome where it was taken, skipped where it was refused.
fn told(taken: Result<(), Trouble>, outcome: Outcome, mark: Mark) -> Result<Outcome, Fault>
    ensures { MatchResult taken (λ _. result ≡ Ok outcome)
        (λ e. elim e [ Refused w ↦ result ≡ Ok (Skipped w mark) | Failed f ↦ result ≡ Err f ]) }
{
    match taken {
        Ok(()) => Ok(outcome),
        Err(Trouble::Refused(why)) => Ok(Outcome::Skipped(why, mark)),
        Err(Trouble::Failed(why)) => Err(why),
    }
}

// Takes an entry, or skips it.
pub(crate) fn take_item<J: Journal + Drop>(
    keeper: &mut Keeper<J>,
    item: &Item,
) -> Result<Outcome, Fault>
    ensures answer { MatchResult result (λ o. plain_outcome o ≡ outcome_of (plain_item item.now) (refusal_of (plain_item item.now) (state_by keeper.old))) (λ _. J.Journal.shut keeper.new.journal ≡ true) }
    ensures kept { MatchResult result
        (λ _. Moves J.Journal.keeps keeper.old keeper.new (takes (plain_item item.now)))
        (λ _. Fails J.Journal.keeps J.Journal.finds keeper.old keeper.new (takes (plain_item item.now))) }
    ensures room { J.Journal.room keeper.old.journal ≤ J.Journal.room keeper.new.journal }
    ensures sure { (k : Kept) → InStep J.Journal.keeps keeper.old k → most_bytes < J.Journal.room keeper.old.journal → is_ok result ≡ true }
{
    match item {
        Item::Committed { place, entry } => {
            // No `From` makes a usize of a u64; nothing is lost by `as`.
            let taken = keeper.take_committed(*place as usize, *entry);
            let outcome = Outcome::Committed {
                place: *place,
                mark: entry.mark,
            };
            told(taken, outcome, entry.mark)
        }
        Item::Tentative(waiting) => {
            let taken = keeper.take_tentative(waiting.entry, &waiting.stood);
            let mark = waiting.entry.mark;
            told(taken, Outcome::Tentative(mark), mark)
        }
    }
}

// Takes or skips the entries that a letter still has, and notes what came of each.
fn take_all<J: Journal + Drop>(
    keeper: &mut Keeper<J>,
    letter: Letter,
    outcomes: &mut Vec<Outcome>,
) -> Result<(), Fault>
    requires empty { vec_len outcomes.old ≡ 0 }
    requires capacity { length (left letter) ≤ vec_capacity outcomes.old }
    ensures kept { MatchResult result
        (λ _. Moves J.Journal.keeps keeper.old keeper.new (items_taken (left letter.entry)))
        (λ _. Fails J.Journal.keeps J.Journal.finds keeper.old keeper.new (items_taken (left letter.entry))) }
    ensures answer { MatchResult result
        (λ _. ((k : Kept) → InStep J.Journal.keeps keeper.old k → map plain_outcome outcomes.new.items ≡ outcomes_of (left letter.entry) k))
        (λ _. J.Journal.shut keeper.new.journal ≡ true) }
    ensures room { J.Journal.room keeper.old.journal ≤ J.Journal.room keeper.new.journal }
    ensures sure { (k : Kept) → InStep J.Journal.keeps keeper.old k → most_bytes < J.Journal.room keeper.old.journal → is_ok result ≡ true }
    ensures capacity { vec_capacity outcomes.new ≡ vec_capacity outcomes.old }
{
    for item in letter {
        let outcome = take_item(keeper, &item)?;
        outcomes.push_reserved(outcome);
    }
    Ok(())
}

// Takes the bytes of a letter, whatever they are, and reports what came of it; a letter that is damaged changes nothing.
pub fn take<J: Journal + Drop>(
    keeper: &mut Keeper<J>,
    bytes: &[u8],
    report: &mut Report,
) -> Result<(), Fault>
    ensures kept { MatchResult result
        (λ _. Moves J.Journal.keeps keeper.old keeper.new (take_bytes bytes.now))
        (λ _. Fails J.Journal.keeps J.Journal.finds keeper.old keeper.new (take_bytes bytes.now)) }
    ensures answer { MatchResult result
        (λ _. ((k : Kept) → InStep J.Journal.keeps keeper.old k → Reports report.new (read_letter bytes.now) k))
        (λ _. J.Journal.shut keeper.new.journal ≡ true) }
    ensures room { J.Journal.room keeper.old.journal ≤ J.Journal.room keeper.new.journal }
    ensures sure { (k : Kept) → InStep J.Journal.keeps keeper.old k → most_bytes < J.Journal.room keeper.old.journal → is_ok result ≡ true }
{
    report.outcomes.clear();
    report.rejected = None;
    // What is wrong with a damaged letter is no error of this call: the report says that it was kept out.
    let Ok(letter) = Letter::open(bytes) else {
        return Ok(());
    };
    report.rejected = Some(letter.kept_out());
    take_all(keeper, letter, &mut report.outcomes)
}
