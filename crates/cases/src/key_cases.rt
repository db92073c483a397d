// Key making and the check of a public key, with every refusal, and two faults at once.
use crate::Cases;
use gf31::Gf31;
use keys::{check_key, make_key};
use params::{MQDSS_31_64, Set};
use refusal::Refusal;
use std::io;
use suite::Suite;
use suites::Named;
use tally::{Told, all};

const SMALL: Set = Set { n: 1, m: 1, r: 1 };

// What key making is asked: a set, and the lengths of the buffers and of the secret key, the first 32 bytes of which are `k` and the others `s`.
#[derive(Clone, Copy)]
struct Ask {
    set: Set,
    map: usize,
    secret: usize,
    key: usize,
    answer: usize,
    k: u8,
    s: u8,
}

// B(2) = 66, and 32 + P(1) = 33.
const GOOD: Ask = Ask {
    set: SMALL,
    map: 66,
    secret: 1024,
    key: 64,
    answer: 33,
    k: 0,
    s: 0,
};

const LARGE: Ask = Ask {
    set: MQDSS_31_64,
    map: 154_432,
    answer: 72,
    ..GOOD
};

// No buffer and no key.
const NOTHING: Ask = Ask {
    map: 0,
    secret: 0,
    key: 0,
    answer: 0,
    ..GOOD
};

// Makes a key in buffers that hold something else.
fn make_case(tally: &mut Cases<'_>, ask: Ask, want: Told) -> io::Result<()> {
    let heap = tally.rt.alloc();
    let mut map = vec![in heap; 0xa5u8; ask.map]?;
    let mut secret = vec![in heap; 0xa5u8; ask.secret]?;
    let mut answer = vec![in heap; 0xa5u8; ask.answer]?;
    let mut key = vec![in heap; ask.k; ask.key.min(32)]?;
    key.resize(ask.key, ask.s)?;
    let told = make_key::<Gf31, Named>(
        ask.set,
        &Named::Bench,
        map.as_mut_slice(),
        secret.as_mut_slice(),
        key.as_slice(),
        answer.as_mut_slice(),
    )
    .map_err(Refusal::numbers);
    tally.count("key making: refusal", told == want)?;
    tally.count("key making: secret buffer", all(secret.as_slice(), 0))?;
    let zeros = want.is_ok() || all(answer.as_slice(), 0);
    tally.count("key making: answer", zeros)
}

fn buffers(tally: &mut Cases<'_>) -> io::Result<()> {
    for (ask, want) in [
        (Ask { map: 65, ..GOOD }, Err((3, 3, 1))),
        (Ask { map: 67, ..GOOD }, Ok(())),
        (
            Ask {
                secret: 1023,
                ..GOOD
            },
            Err((3, 3, 3)),
        ),
        (
            Ask {
                secret: 1025,
                ..GOOD
            },
            Ok(()),
        ),
        (Ask { answer: 32, ..GOOD }, Err((3, 3, 4))),
        (Ask { answer: 34, ..GOOD }, Err((3, 3, 4))),
        // of several the smallest place, and before the key's length
        (NOTHING, Err((3, 3, 1))),
        (Ask { map: 66, ..NOTHING }, Err((3, 3, 3))),
    ] {
        make_case(tally, ask, want)?;
    }
    Ok(())
}

fn sets(tally: &mut Cases<'_>) -> io::Result<()> {
    for (n, m, r) in [(65usize, 64usize, 269usize), (64, 65, 269), (64, 64, 270)] {
        let set = Set { n, m, r };
        make_case(tally, Ask { set, ..LARGE }, Err((1, 3, 0)))?;
    }
    for (n, m, r) in [(0usize, 1usize, 1usize), (1, 0, 1)] {
        let set = Set { n, m, r };
        make_case(tally, Ask { set, ..GOOD }, Err((1, 3, 0)))?;
    }
    let bad = Ask {
        set: Set { r: 0, ..SMALL },
        map: 0,
        secret: 5,
        key: 1,
        answer: 2,
        ..GOOD
    };
    make_case(tally, bad, Err((1, 3, 0)))?;
    make_case(tally, LARGE, Ok(()))?;
    let short = Ask {
        map: 154_431,
        ..LARGE
    };
    make_case(tally, short, Err((3, 3, 1)))
}

fn seeds(tally: &mut Cases<'_>) -> io::Result<()> {
    for (key, k, s, want) in [
        (63usize, 0xf6u8, 0xf7u8, Err((7, 3, 0))),
        (65, 0, 0, Err((7, 3, 0))),
        // with label 9 a seed of F6 gives nothing but 31, with label 8 one of F7; 9 comes first
        (64, 0xf6, 0, Err((17, 2, 9))),
        (64, 0, 0xf7, Err((17, 2, 8))),
        (64, 0xf6, 0xf7, Err((17, 2, 9))),
    ] {
        make_case(tally, Ask { key, k, s, ..GOOD }, want)?;
    }
    Ok(())
}

pub fn run_make(tally: &mut Cases<'_>) -> io::Result<()> {
    buffers(tally)?;
    sets(tally)?;
    seeds(tally)?;
    example(tally)
}

// a = b = 8, s = 9, v = 7.
fn example(tally: &mut Cases<'_>) -> io::Result<()> {
    let mut map = [0u8; 66];
    let mut secret = [0u8; 1024];
    let mut answer = [0xa5u8; 33];
    let made = make_key::<Gf31, Named>(
        SMALL,
        &Named::Bench,
        &mut map,
        &mut secret,
        &[0u8; 64],
        &mut answer,
    );
    tally.count(
        "key making: the example",
        made.is_ok() && all(&answer[..32], 0) && answer[32] == 7,
    )
}

fn check_case(tally: &mut Cases<'_>, set: Set, v: &[u8], want: Told) -> io::Result<()> {
    let mut key = vec![in tally.rt.alloc(); 0xffu8; 32]?;
    key.extend_from_slice(v)?;
    let told = check_key::<Gf31>(set, key.as_slice()).map_err(Refusal::numbers);
    tally.count("check of a key", told == want)
}

pub fn run_check(tally: &mut Cases<'_>) -> io::Result<()> {
    let three = Set { m: 3, ..SMALL };
    check_case(tally, SMALL, &[30], Ok(()))?;
    check_case(tally, SMALL, &[0x1f], Err((8, 1, 0)))?;
    check_case(tally, SMALL, &[0x27], Err((8, 1, 1)))?;
    check_case(tally, SMALL, &[0xff], Err((8, 1, 0)))?;
    check_case(tally, SMALL, &[], Err((7, 3, 0)))?;
    check_case(tally, SMALL, &[0x1f, 0], Err((7, 3, 0)))?;
    check_case(tally, three, &[0xe0, 0x03], Err((8, 1, 1)))?;
    check_case(tally, three, &[0x00, 0x7c], Err((8, 1, 2)))?;
    check_case(tally, three, &[0x00, 0x80], Err((8, 1, 3)))?;
    check_case(tally, three, &[0x00, 0xfc], Err((8, 1, 2)))?;
    check_case(tally, Set { n: 65, ..three }, &[], Err((1, 3, 0)))
}
