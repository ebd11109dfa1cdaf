// A vector of a line: a stamp for each hut, which may be out of range. That of `entry_log` is one whose stamps are in range.
ghost use Rattle.std.specs.Prelude.{◌≡◌, length};
ghost use Rattle.bookings.specs.declared.limits.TheConstants.{HUTS};

use bookings::limits::HUTS;

mod methods;

#[derive(Clone, Copy)]
pub struct RawVector {
    all: [u64; HUTS],
    ghost sixteen: { length all ≡ HUTS },
}
