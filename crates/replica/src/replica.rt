// The state of a replica: its head and its log, and the book that the log makes.
ghost use Rattle.bookings.specs.Views.{book_in};
ghost use Rattle.entry_log.specs.Logs.{all_of};
ghost use Rattle.entry_log.specs.Views.{log_in};
ghost use Rattle.replica.specs.Heads.{HeadOf};
ghost use Rattle.replica.specs.Steps.{InStep};

use crate::head::Head;
use bookings::book::Book;
use entry_log::log::Log;

mod finds;
mod hands;
mod makes;
mod reads;
mod restarts;
mod takes;

// No model: `state_of` says what it comes to, and proofs about keepers read the ghost fields of its log.
#[derive(Drop)]
pub struct Replica {
    head: Head,
    log: Log,
    book: Book,
    ghost headed: { HeadOf head (all_of (log_in log)) },
    ghost in_step: { InStep (book_in book) (all_of (log_in log)) },
}
