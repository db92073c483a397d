// The worked example, byte by byte: bench suite, set (1, 1, 1), a secret key of zeros, no message.
use crate::Cases;
use crate::kit::{Room, Scheme};
use gf31::Gf31;
use params::Set;
use second::manner::Manner;
use std::io;
use suite::Suite;
use suite::drawing::draw;
use suites::Named;
use tally::all;

pub const SMALL: Set = Set { n: 1, m: 1, r: 1 };

pub const BENCH: Scheme<Named> = Scheme {
    suite: Named::Bench,
    set: SMALL,
};

// Three bytes, and then one byte over and over.
fn row(front: [u8; 3], rest: u8) -> [u8; 32] {
    let mut bytes = [rest; 32];
    bytes[..3].copy_from_slice(&front);
    bytes
}

// R (32 bytes), σ0 (32), t1, e1, r1, c0 (32).
pub const EXAMPLE: &[u8; 99] = b"\x03\x03\x03\x03\x03\x03\x03\x03\x03\x03\x03\x03\x03\x03\x03\x03\
    \x03\x03\x03\x03\x03\x03\x03\x03\x03\x03\x03\x03\x03\x03\x03\x03\
    \x2b\x39\x1b\x03\x03\x03\x03\x03\x03\x03\x03\x03\x03\x03\x03\x03\
    \x03\x03\x03\x03\x03\x03\x03\x03\x03\x03\x03\x03\x03\x03\x03\x03\
    \x18\x1c\x10\
    \x18\x18\x18\x00\x00\x00\x00\x00\x00\x00\x00\x00\x00\x00\x00\x00\
    \x00\x00\x00\x00\x00\x00\x00\x00\x00\x00\x00\x00\x00\x00\x00\x00";

// That the first elements drawn with a label and a seed are all `want`.
fn drawn(
    tally: &mut Cases<'_>,
    label: u8,
    seed: &[u8; 32],
    count: usize,
    want: u8,
) -> io::Result<()> {
    let mut buffer = [0xa5u8; 128];
    let made = draw::<Gf31, Named>(&Named::Bench, label, seed, &mut buffer, count);
    let good = made.is_ok() && buffer.iter().take(count).all(|&x| x == want);
    tally.count("the example: what is drawn", good)
}

fn digested(
    tally: &mut Cases<'_>,
    label: u8,
    head: &[u8],
    tail: &[u8],
    want: &[u8; 32],
) -> io::Result<()> {
    let mut out = [0u8; 32];
    let made = Named::Bench.digest(label, head, tail, &mut out);
    tally.count("the example: a digest", made.is_ok() && out == *want)
}

// From K and S to the bit: a = b = 8, s = 9; r0 = t0 = e0 = 24; α = 2; bit 1.
fn steps(tally: &mut Cases<'_>) -> io::Result<()> {
    let k = [0u8; 32];
    let h1 = row([0x37, 0x45, 0x27], 0x0f);
    let h2 = row([0x87, 0xa7, 0x4f], 0x1f);
    drawn(tally, 8, &k, 2, 8)?;
    drawn(tally, 9, &k, 1, 9)?;
    digested(tally, 3, &k, &[], &[3; 32])?;
    digested(tally, 4, &[3; 32], &[], &[7; 32])?;
    drawn(tally, 10, &[0x0e; 32], 3, 24)?;
    digested(tally, 5, &[7; 32], &row([0x2b, 0x39, 0x1b], 3), &h1)?;
    drawn(tally, 11, &h1, 1, 2)?;
    let mut bits = [0u8; 1];
    let made = Named::Bench.stream(12, &h2, &mut bits);
    tally.count("the example: the bit", made.is_ok() && bits[0] == 0x93)
}

pub fn run_example(tally: &mut Cases<'_>) -> io::Result<()> {
    steps(tally)?;
    let heap = tally.rt.alloc();
    let room = Room::of(SMALL);
    let second = BENCH.second(heap);
    let key = second.public_key(&[0u8; 64])?;
    let mut plain = [0u8; 33];
    plain[32] = 7;
    tally.count(
        "the example: the second signer's key",
        key.as_slice() == plain.as_slice(),
    )?;
    let signed = BENCH.sign_in(heap, room, &[0u8; 64], &[])?;
    tally.count("the example: signing", signed.told.is_ok())?;
    let same = signed.answer.as_slice() == EXAMPLE.as_slice();
    tally.count("the example: the signature", same)?;
    tally.count("the example: the secret buffer", signed.clean)?;
    let sig = second.sign(&[0u8; 64], &[], Manner::Honest)?;
    let same = sig.as_slice() == EXAMPLE.as_slice();
    tally.count("the example: the second signer's", same)?;
    let told = BENCH.verify_in(heap, room, key.as_slice(), &[], EXAMPLE)?;
    tally.count("the example: verification", told.is_ok())?;
    let told = BENCH.judged(heap, key.as_slice(), &[], EXAMPLE)?;
    tally.count("the example: the second verdict", told.is_ok())
}
