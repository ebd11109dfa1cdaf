// The laws of a replica's log: each function's contract is a law.
ghost use Rattle.replica.specs.Laws.{MadeStandsLast, CommitKeepsOrder, ParcelIsSmall, ParcelHasNoGap};

// An entry that was just made stands last.
pub fn made_stands_last()
    ensures { MadeStandsLast }
{}

// Committing never changes the order of the log, nor does taking as committed what is next already.
pub fn commit_keeps_order()
    ensures { CommitKeepsOrder }
{}

// What is handed on is as many entries as a letter can have, at most.
pub fn parcel_is_small()
    ensures { ParcelIsSmall }
{}

// What is handed on has everything up to where it stops.
pub fn parcel_has_no_gap()
    ensures { ParcelHasNoGap }
{}
