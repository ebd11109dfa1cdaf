// The laws of desks and of their answers: each function's contract is a law.
ghost use Rattle.desk.specs.Composed.{StayTogether, BeginTogether};
ghost use Rattle.desk.specs.Laws.{LineByLowest, PrintedCountsAddUp, PrintedStays};
ghost use Rattle.network.specs.Promise.{Always};

use crate::calls::Desk;

// A line is refused by the lowest number whose condition holds, and is done only where none holds.
pub fn line_by_lowest()
    ensures { LineByLowest }
{}

// What is printed as taken, as skipped and as kept out is as many entries as a letter's count fields say.
pub fn printed_counts_add_up()
    ensures { PrintedCountsAddUp }
{}

// What was printed of a committed entry is printed ever after.
pub fn printed_stays()
    ensures { Always PrintedStays }
{}

// The programs of all huts stay together, whichever of them does a line, ends or is opened again.
pub fn stay_together<D: Desk>()
    ensures { StayTogether D.keeps D.finds }
{}

// Before any program has begun, they are together with the network in which nothing was done.
pub fn begin_together<D: Desk>()
    ensures { BeginTogether D.keeps D.finds }
{}
