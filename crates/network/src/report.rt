// What came of a letter: room for all that one can hold, reserved once.
ghost use Rattle.std.specs.Prelude.{◌≡◌, ◌≤◌, [], not, Some, IfOk, vec_capacity};
ghost use Rattle.std.specs.Option.{is_some, unwrap_or};
ghost use Rattle.entry_log.specs.declared.waiting.TheConstants.{MAX_LETTER_ENTRIES};

use crate::outcome::Outcome;
use entry_log::waiting::MAX_LETTER_ENTRIES;
use std::alloc::{AllocError, Global};

// What came of each entry, in the letter's order, and how many were kept out behind them; none of both where the whole letter was kept out.
#[derive(Drop)]
pub struct Report {
    pub(crate) outcomes: Vec<Outcome>,
    pub(crate) rejected: Option<usize>,
    ghost room: { MAX_LETTER_ENTRIES ≤ vec_capacity outcomes },
}

impl Report {
    pub fn new(heap: Global) -> Result<Report, AllocError>
        ensures { IfOk result (λ p. (p.outcomes.items ≡ []) × (p.rejected ≡ Some 0)) }
    {
        let outcomes = Vec::with_capacity(heap, MAX_LETTER_ENTRIES)?;
        Ok(Report {
            outcomes,
            rejected: Some(0),
        })
    }

    pub fn outcomes(&self) -> &[Outcome]
        ensures { result.now ≡ self.now.outcomes.items }
    {
        self.outcomes.as_slice()
    }

    // How many entries were kept out, out of range or behind one that is.
    pub fn rejected(&self) -> usize
        ensures { result ≡ unwrap_or self.now.rejected 0 }
    {
        self.rejected.unwrap_or(0)
    }

    // Whether the letter was kept out whole.
    pub fn is_damaged(&self) -> bool
        ensures { result ≡ not (is_some self.now.rejected) }
    {
        self.rejected.is_none()
    }
}
