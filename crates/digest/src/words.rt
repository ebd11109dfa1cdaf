// The six functions on 32-bit words (FIPS 180-4, 4.1.2), and words as bytes with the most significant first.
ghost use Rattle.std.specs.Prelude.{◌≡◌};
ghost use Rattle.std.specs.List.{flat_map};
ghost use Rattle.digest.specs.Sha256.{ch_of, maj_of, big_sigma0, big_sigma1, small_sigma0, small_sigma1};
ghost use Rattle.digest.specs.Sha256.{bytes4};

use crate::DIGEST_BYTES;

pub(crate) fn ch(x: u32, y: u32, z: u32) -> u32
    ensures { result ≡ ch_of x y z }
{
    (x & y) ^ (!x & z)
}

pub(crate) fn maj(x: u32, y: u32, z: u32) -> u32
    ensures { result ≡ maj_of x y z }
{
    (x & y) ^ (x & z) ^ (y & z)
}

// The standard names four sigma functions: one with const parameters would take three numbers in place of a name, and two of the four end in a shift.
pub(crate) fn big_sigma0(x: u32) -> u32
    ensures { result ≡ big_sigma0 x }
{
    x.rotate_right(2) ^ x.rotate_right(13) ^ x.rotate_right(22)
}

pub(crate) fn big_sigma1(x: u32) -> u32
    ensures { result ≡ big_sigma1 x }
{
    x.rotate_right(6) ^ x.rotate_right(11) ^ x.rotate_right(25)
}

pub(crate) fn small_sigma0(x: u32) -> u32
    ensures { result ≡ small_sigma0 x }
{
    x.rotate_right(7) ^ x.rotate_right(18) ^ (x >> 3)
}

pub(crate) fn small_sigma1(x: u32) -> u32
    ensures { result ≡ small_sigma1 x }
{
    x.rotate_right(17) ^ x.rotate_right(19) ^ (x >> 10)
}

// The bytes of a state's eight words.
pub(crate) fn to_bytes(state: [u32; 8]) -> [u8; DIGEST_BYTES]
    ensures { result ≡ flat_map bytes4 state }
{
    let mut out = [0u8; DIGEST_BYTES];
    out.copy_from_slice(state.map(u32::to_be_bytes).as_flattened());
    out
}
