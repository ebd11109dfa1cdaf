// The laws of slips: each stands on the contract of a function.
ghost use Rattle.guest.specs.Laws.{OneForm, Length};

// Different slips have different bytes.
pub fn one_form()
    ensures { OneForm }
{}

// All slips have `SLIP_BYTES` bytes.
pub fn one_length()
    ensures { Length }
{}
