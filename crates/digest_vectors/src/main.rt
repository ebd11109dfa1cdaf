// Prints the length and the digest of published messages, and of lengths around each edge of the padding.
// The file `stdout` beside src/ has the digests as another implementation gives them (bench/digest/expected).
#![tactic(auto)]

use digest::{Hasher, sha256};

// One line: a length, and a digest in hex.
fn show(rt: &impl Print, length: usize, digest: [u8; 32]) -> anyhow::Result<()> {
    print!(rt; "{length} ")?;
    for byte in digest {
        print!(rt; "{byte:02x}")?;
    }
    println!(rt; "")?;
    Ok(())
}

// The published texts of 3, 56 and 112 bytes.
const TEXTS: [&[u8]; 3] = [
    b"abc",
    b"abcdbcdecdefdefgefghfghighijhijkijkljklmklmnlmnomnopnopq",
    b"abcdefghbcdefghicdefghijdefghijkefghijklfghijklmghijklmnhijklmnoijklmnopjklmnopqklmnopqrlmnopqrsmnopqrstnopqrstu",
];

fn texts(rt: &impl Print) -> anyhow::Result<()> {
    for text in TEXTS {
        show(rt, text.len(), sha256(text))?;
    }
    Ok(())
}

// Some bytes of `a`, whose lengths stand at the edges of the padding.
fn edges(rt: &impl Print) -> anyhow::Result<()> {
    let letters = [b'a'; 128];
    for length in [0usize, 1, 55, 56, 57, 63, 64, 65, 119, 120, 128] {
        show(rt, length, sha256(&letters[..length]))?;
    }
    Ok(())
}

// A million times `a`, taken in by a thousand parts.
fn million() -> [u8; 32] {
    let part = [b'a'; 1000];
    let mut hasher = Hasher::new();
    for _ in 0..1000 {
        hasher.update(&part);
    }
    hasher.finish()
}

// Says where a message in three parts has another digest than in one piece.
fn parts(rt: &impl Print) -> anyhow::Result<()> {
    let letters = [b'a'; 300];
    for size in 0..131 {
        let mut hasher = Hasher::new();
        let (front, rest) = letters.split_at(size);
        let (middle, back) = rest.split_at(size);
        for part in [front, middle, back] {
            hasher.update(part);
        }
        if hasher.finish() != sha256(&letters) {
            println!(rt; "parts of {size} bytes differ")?;
        }
    }
    show(rt, 300, sha256(&letters))
}

fn main(rt: HostRuntime) -> anyhow::Result<()> {
    texts(&rt)?;
    edges(&rt)?;
    parts(&rt)?;
    show(&rt, 1000000, million())
}
