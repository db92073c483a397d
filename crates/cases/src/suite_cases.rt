// The limits of the suites, and drawing at its edges.
use crate::Cases;
use gf31::Gf31;
use refusal::Refusal;
use std::io;
use suite::Suite;
use suite::drawing::draw;
use suites::Named;
use tally::{Told, all};

fn digest_case(
    tally: &mut Cases<'_>,
    suite: Named,
    head: usize,
    tail: usize,
    want: Told,
) -> io::Result<()> {
    let head = vec![in tally.rt.alloc(); 1u8; head]?;
    let tail = vec![in tally.rt.alloc(); 2u8; tail]?;
    let mut out = [0xa5u8; 32];
    let told = suite
        .digest(7, head.as_slice(), tail.as_slice(), &mut out)
        .map_err(Refusal::numbers);
    tally.count("digest: refusal", told == want)?;
    tally.count(
        "digest: zeros exactly where refused",
        all(&out, 0) == want.is_err(),
    )
}

fn stream_case(tally: &mut Cases<'_>, suite: Named, len: usize, want: Told) -> io::Result<()> {
    let mut out = vec![in tally.rt.alloc(); 0xa5u8; len]?;
    let told = suite
        .stream(12, &[1u8; 32], out.as_mut_slice())
        .map_err(Refusal::numbers);
    tally.count("stream: refusal", told == want)?;
    tally.count(
        "stream: zeros exactly where refused",
        all(out.as_slice(), 0) == want.is_err(),
    )
}

fn limits(tally: &mut Cases<'_>, suite: Named) -> io::Result<()> {
    for (head, tail, want) in [
        (0usize, 0usize, Ok(())),
        (131_072, 0, Ok(())),
        (0, 131_072, Ok(())),
        (65_536, 65_536, Ok(())),
        (131_073, 0, Err((16, 2, 7))),
        (0, 131_073, Err((16, 2, 7))),
        (65_536, 65_537, Err((16, 2, 7))),
    ] {
        digest_case(tally, suite, head, tail, want)?;
    }
    for (len, want) in [
        (1usize, Ok(())),
        (262_144, Ok(())),
        (262_145, Err((16, 2, 12))),
    ] {
        stream_case(tally, suite, len, want)?;
    }
    Ok(())
}

pub fn run_limits(tally: &mut Cases<'_>) -> io::Result<()> {
    limits(tally, Named::Bench)?;
    limits(tally, Named::Keccak)
}

fn draw_case(
    tally: &mut Cases<'_>,
    seed: u8,
    room: usize,
    count: usize,
    want: Told,
) -> io::Result<()> {
    let mut buffer = vec![in tally.rt.alloc(); 0xa5u8; room]?;
    let told = draw::<Gf31, Named>(
        &Named::Bench,
        8,
        &[seed; 32],
        buffer.as_mut_slice(),
        count,
    ).map_err(Refusal::numbers);
    tally.count("drawing: refusal", told == want)
}

pub fn run_draws(tally: &mut Cases<'_>) -> io::Result<()> {
    for (seed, room, count, want) in [
        // B(1) = 65, B(8) = 73
        (0u8, 65usize, 1usize, Ok(())),
        (0, 64, 1, Err((3, 2, 1))),
        (0, 73, 8, Ok(())),
        (0, 72, 8, Err((3, 2, 1))),
        (0, 0, usize::MAX, Err((3, 2, 1))),
        (0xf7, 65, 1, Err((17, 2, 8))),
        (0xf7, 64, 1, Err((3, 2, 1))),
        (0xf7, 64, 0, Ok(())),
        // B(232,961) is one byte past the limit of a stream
        (0, 262_145, 232_961, Err((16, 2, 8))),
        (0, 262_144, 232_960, Ok(())),
    ] {
        draw_case(tally, seed, room, count, want)?;
    }
    Ok(())
}
