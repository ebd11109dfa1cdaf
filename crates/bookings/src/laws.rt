// The laws of bookings: each function's contract is a law, over every list of entries in range.
ghost use Rattle.bookings.specs.Laws.{NeverOverbooked, BookedIsHeld, GetsFirstFree, UndoGivesBack, OldMarkDoesNothing, ChangeNotFreeDoesNothing, UnknownMarkDoesNothing, BedsAreSet, CancelFrees, CancelLasts, ChangeIsCancelThenBook};

// On no night are more beds booked than there are.
pub fn never_overbooked()
    ensures { NeverOverbooked }
{}

// Booked on a night is the sum of the beds that bookings hold there.
pub fn booked_is_held()
    ensures { BookedIsHeld }
{}

// A booking gets the first of its choices that is free, and nothing only where none is.
pub fn gets_first_free()
    ensures { GetsFirstFree }
{}

// Undoing the entry that was done last gives back the very book.
pub fn undo_gives_back()
    ensures { UndoGivesBack }
{}

// A cancellation or change of a booking that was cancelled or changed already does nothing.
pub fn old_mark_does_nothing()
    ensures { OldMarkDoesNothing }
{}

// A change whose choices are not free, with the booking's own beds given back, does nothing.
pub fn change_not_free_does_nothing()
    ensures { ChangeNotFreeDoesNothing }
{}

// A cancellation or change of a mark that does not stand before it does nothing.
pub fn unknown_mark_does_nothing()
    ensures { UnknownMarkDoesNothing }
{}

// A change of beds sets those of its nights, but to no fewer than are booked, and leaves all others.
pub fn beds_are_set()
    ensures { BedsAreSet }
{}

// A cancellation of a booking that holds a choice gives its beds back.
pub fn cancel_frees()
    ensures { CancelFrees }
{}

// What was cancelled holds nothing from then on.
pub fn cancel_lasts()
    ensures { CancelLasts }
{}

// A change is a cancellation and a new booking, or does nothing.
pub fn change_is_cancel_then_book()
    ensures { ChangeIsCancelThenBook }
{}
