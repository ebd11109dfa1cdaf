// Hexadecimal digits of a line, two to a byte.
ghost use Rattle.std.specs.Prelude.{◌≡◌, true};
ghost use Rattle.console.specs.Hexes.{is_hex};

mod decodes;
mod reads;

pub use self::decodes::NoRoom;

#[derive(Clone, Copy)]
pub struct Hex<'a> {
    digits: &'a [u8],
    ghost whole: { is_hex digits.now ≡ true },
}
