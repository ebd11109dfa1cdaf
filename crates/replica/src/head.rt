// What a replica knows of its log at a glance; it is passed by value, and handed back.
ghost use Rattle.std.specs.Prelude.{◌<◌};
ghost use Rattle.bookings.specs.declared.limits.TheConstants.{HUTS};

use entry_log::vector::Vector;

mod methods;

/// The highest stamp that there is, which no entry of a replica has.
pub const LAST_STAMP: u32 = u32::MAX;

// Its number, how many entries it has, the highest stamp of all, and the highest of each hut.
#[derive(Clone, Copy)]
pub struct Head {
    pub hut: u8,
    pub entries: usize,
    pub top: u32,
    pub seen: Vector,
    ghost hut_ok: { hut < HUTS },
}
