// A digest for a caller in C or Rust, to be timed by bench/digest.
#![tactic(auto)]

ghost use Rattle.std.specs.Prelude.{◌≡◌, ◌≢◌, length};
ghost use Rattle.digest.specs.Sha256.{digest_of};

// Writes the digest of a message to `out`, if that has 32 bytes.
#[unsafe(no_mangle)]
pub extern "C" fn digest_into(message: &[u8], out: &mut [u8])
    ensures value { length out.old ≡ 32 → out.new ≡ digest_of message.now }
    ensures same { length out.old ≢ 32 → out.new ≡ out.old }
{
    if out.len() == 32 {
        out.copy_from_slice(&digest::sha256(message));
    }
}
