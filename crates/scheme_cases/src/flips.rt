// Refusal 12: single bits changed all over small signatures, and parts that belong to something else.
use crate::Cases;
use crate::kit::Room;
use crate::stage::{Stage, pattern};
use params::Set;
use std::io;
use suites::Named;
use tally::Told;

const NOT_ACCEPTED: Told = Err((12, 3, 0));

// Turns bit `b` of a row of bytes.
fn turn(bytes: &mut [u8], b: usize) {
    if let Some(x) = bytes.get_mut(b / 8) {
        *x ^= 1u8 << (b % 8);
    }
}

// Every bit of the signature, one at a time: both verdicts agree, and outside the vectors it is 12 under Keccak.
fn turn_all(tally: &mut Cases<'_>, stage: &Stage) -> io::Result<()> {
    let len = stage.sig.len();
    let carried = len.saturating_sub(stage.scheme.set.r.saturating_mul(32));
    for b in 0..len.saturating_mul(8) {
        let mut sig = stage.sig.clone()?;
        turn(sig.as_mut_slice(), b);
        let told = stage.told(tally, "a turned bit", sig.as_slice())?;
        let loose = b / 8 < 64 || b / 8 >= carried;
        if stage.scheme.suite == Named::Keccak {
            let good = if loose {
                told == NOT_ACCEPTED
            } else {
                told.is_err()
            };
            stage.count(tally, "a turned bit under Keccak", good)?;
        }
    }
    Ok(())
}

// Every bit of the public key.
fn turn_key(tally: &mut Cases<'_>, stage: &Stage) -> io::Result<()> {
    let heap = tally.rt.alloc();
    let scheme = stage.scheme;
    let room = Room::of(scheme.set);
    let message = stage.message.as_slice();
    let sig = stage.sig.as_slice();
    for b in 0..stage.key.len().saturating_mul(8) {
        let mut key = stage.key.clone()?;
        turn(key.as_mut_slice(), b);
        let told = scheme.verify_in(heap, room, key.as_slice(), message, sig)?;
        let want = scheme.judged(heap, key.as_slice(), message, sig)?;
        let good = told == want && (b / 8 >= 32 || told == NOT_ACCEPTED);
        stage.count(tally, "a turned bit in the key", good)?;
    }
    Ok(())
}

// Another message: a bit turned, a byte more, none.
fn other_messages(tally: &mut Cases<'_>, stage: &mut Stage) -> io::Result<()> {
    let heap = tally.rt.alloc();
    let sig = stage.sig.clone()?;
    let sig = sig.as_slice();
    turn(stage.message.as_mut_slice(), 13);
    stage.expect(tally, "a message with a bit turned", sig, NOT_ACCEPTED)?;
    turn(stage.message.as_mut_slice(), 13);
    stage.message.push(0)?;
    stage.expect(tally, "a longer message", sig, NOT_ACCEPTED)?;
    stage.message = Vec::new(heap);
    stage.expect(tally, "no message", sig, NOT_ACCEPTED)
}

// The signature of another key, and sets under which the lengths are the same.
fn other_places(tally: &mut Cases<'_>) -> io::Result<()> {
    let heap = tally.rt.alloc();
    let set = Set { n: 3, m: 5, r: 4 };
    let mut stage = Stage::of_patterns(heap, Named::Keccak, set, 8, 30)?;
    let mut other = Stage::of_patterns(heap, Named::Keccak, set, 9, 30)?;
    other.message = pattern(heap, 8, 3, 30)?;
    stage.expect(tally, "the stage itself", stage.sig.as_slice(), Ok(()))?;
    other.expect(tally, "another key", stage.sig.as_slice(), NOT_ACCEPTED)?;
    for (n, m, r) in [(2usize, 5usize, 4usize), (3, 6, 4), (2, 6, 4), (3, 4, 4)] {
        stage.scheme.set = Set { n, m, r };
        let told = stage.told(tally, "another set", stage.sig.as_slice())?;
        stage.count(tally, "another set: not accepted", told.is_err())?;
    }
    // the signature of (1, 3, 2) has as many bytes as one of (30, 3, 1)
    let set = Set { n: 1, m: 3, r: 2 };
    let mut stage = Stage::of_patterns(heap, Named::Keccak, set, 8, 30)?;
    stage.scheme.set = Set { n: 30, m: 3, r: 1 };
    let told = stage.told(tally, "fewer rounds", stage.sig.as_slice())?;
    tally.count(
        "fewer rounds: not accepted",
        told.is_err_and(|(number, _, _)| number != 9),
    )
}

pub fn run_flips(tally: &mut Cases<'_>) -> io::Result<()> {
    let heap = tally.rt.alloc();
    let set = Set { n: 2, m: 3, r: 2 };
    let mut stage = Stage::of_patterns(heap, Named::Keccak, set, 60, 25)?;
    turn_all(tally, &stage)?;
    turn_key(tally, &stage)?;
    other_messages(tally, &mut stage)?;
    for (n, m, r, start, length) in [(1usize, 1usize, 1usize, 0u8, 0usize), (8, 3, 3, 90, 70)] {
        let stage = Stage::of_patterns(heap, Named::Bench, Set { n, m, r }, start, length)?;
        turn_all(tally, &stage)?;
    }
    other_places(tally)
}
