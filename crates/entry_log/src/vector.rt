// Version vectors: for each hut the highest stamp of its entries, 0 for none.
ghost use Rattle.std.specs.Prelude.{◌≡◌, length};
ghost use Rattle.bookings.specs.declared.limits.TheConstants.{HUTS};

use bookings::limits::HUTS;

mod methods;
mod shows;

#[derive(Clone, Copy, PartialEq, Eq)]
pub struct Vector {
    stamps: [u32; HUTS],
    ghost sixteen: { length stamps ≡ HUTS },
}

impl Vector {
    pub fn new(stamps: [u32; HUTS]) -> Vector
        ensures { result.stamps ≡ stamps }
    {
        Vector { stamps }
    }

    // The stamps, hut by hut.
    pub fn stamps(&self) -> [u32; HUTS]
        ensures { result ≡ self.now.stamps }
    {
        self.stamps
    }
}
