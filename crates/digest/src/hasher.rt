// What is kept of a message that comes in parts.
ghost use Rattle.std.specs.Prelude.{◌<◌};

mod methods;

// The state after the whole blocks, the bytes of the block that was begun (the first `filled` of it), and how many bytes came in all.
// An array and how much of it is filled, since `compress` takes a whole block, and a hasher takes no memory.
#[derive(Drop)]
pub struct Hasher {
    state: [u32; 8],
    block: [u8; 64],
    filled: usize,
    count: u64,
    ghost short: { filled < 64 },
}
