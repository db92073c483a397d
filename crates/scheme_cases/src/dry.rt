// Every drawing of signing and verification that can fall short, in its order, under the flat suite.
use crate::Cases;
use crate::example::SMALL;
use crate::kit::{Room, Scheme};
use second::manner::Manner;
use second::trouble::Trouble;
use std::io;
use suite_flat::Flat;
use tally::all;

fn flat(shift: u8) -> Scheme<Flat> {
    Scheme {
        suite: Flat { shift },
        set: SMALL,
    }
}

// Signs with K of bytes k and S of bytes s, where the drawing with that label falls short.
fn sign_dry(tally: &mut Cases<'_>, shift: u8, k: u8, s: u8, label: u8) -> io::Result<()> {
    let heap = tally.rt.alloc();
    let scheme = flat(shift);
    let mut key = [s; 64];
    key[..32].fill(k);
    let signed = scheme.sign_in(heap, Room::of(SMALL), &key, b"dry")?;
    let want = Err((17, 2, label as usize));
    tally.count("signing: a dry stream", signed.told == want)?;
    let zeros = signed.clean && all(signed.answer.as_slice(), 0);
    tally.count("signing: a dry stream, the buffers", zeros)?;
    let made = scheme.second(heap).sign(&key, b"dry", Manner::Honest);
    let dry = made.err() == Some(Trouble::Few { label });
    tally.count("the second signer: a dry stream", dry)
}

fn verify_dry(tally: &mut Cases<'_>, shift: u8, s: u8, label: u8) -> io::Result<()> {
    let heap = tally.rt.alloc();
    let scheme = flat(shift);
    let mut key = [s; 33];
    key[32] = 7;
    let sig = [1u8; 99];
    let want = Err((17, 2, label as usize));
    let told = scheme.verify_in(heap, Room::of(SMALL), &key, b"dry", &sig)?;
    tally.count("verification: a dry stream", told == want)?;
    let told = scheme.judged(heap, &key, b"dry", &sig)?;
    tally.count("the second verdict: a dry stream", told == want)
}

// With shift 14 the seed of a round is 15 hexadecimal, and label 10 gives 31; with shift 15 h1 is 14 hexadecimal, and label 11 does.
pub fn run_dry(tally: &mut Cases<'_>) -> io::Result<()> {
    for shift in [14u8, 15] {
        sign_dry(tally, shift, 0xf6, 0xf7, 9)?;
        sign_dry(tally, shift, 0xf6, 0, 9)?;
        sign_dry(tally, shift, 0, 0xf7, 8)?;
        verify_dry(tally, shift, 0xf7, 8)?;
    }
    sign_dry(tally, 14, 0, 0, 10)?;
    sign_dry(tally, 15, 0, 0, 11)?;
    verify_dry(tally, 15, 0, 11)
}
