// Verification: the refusals of the key and of the signature's length, in their order.
use crate::Cases;
use crate::stage::pattern;
use crate::verify_ask::{ROOM, ask_in, fresh, of_other_lengths, spoiled};
use std::io;

// Lengths of the key and of the signature, the key's first.
fn refuse_lengths(tally: &mut Cases<'_>) -> io::Result<()> {
    let heap = tally.rt.alloc();
    let mut stage = fresh(heap)?;
    for bytes in of_other_lengths(heap, stage.sig.as_slice())? {
        stage.sig = bytes;
        ask_in(
            tally,
            "verification: the length",
            &stage,
            ROOM,
            Err((9, 3, 0)),
        )?;
    }
    for bytes in of_other_lengths(heap, stage.key.as_slice())? {
        stage.key = bytes;
        ask_in(tally, "verification: the key", &stage, ROOM, Err((7, 3, 0)))?;
    }
    Ok(())
}

// The vector of the key, before the length of the signature; and the length before the vectors.
fn refuse_elements(tally: &mut Cases<'_>) -> io::Result<()> {
    let heap = tally.rt.alloc();
    let mut good = fresh(heap)?;
    let mut short = spoiled(heap)?;
    short.message = pattern(heap, 0, 1, 9)?;
    let seed = pattern(heap, 9, 1, 32)?;
    for (v, place) in [
        ([0x1fu8, 0x00u8], 0usize),
        ([0xff, 0xff], 0),
        ([0xe0, 0x03], 1),
        ([0x00, 0x7c], 2),
        ([0x00, 0xfc], 2),
        ([0x00, 0x80], 3),
    ] {
        good.key = [seed.as_slice(), &v].concat(heap)?;
        short.key = good.key.clone()?;
        let want = Err((8, 1, place));
        ask_in(tally, "verification: the key's vector", &good, ROOM, want)?;
        let name = "verification: the key's vector before the length";
        ask_in(tally, name, &short, ROOM, want)?;
    }
    let mut stage = fresh(heap)?;
    stage.sig = pattern(heap, 0xff, 0, 141)?;
    let name = "verification: the length before the vectors";
    ask_in(tally, name, &stage, ROOM, Err((9, 3, 0)))
}

pub fn run_verify_lengths(tally: &mut Cases<'_>) -> io::Result<()> {
    refuse_lengths(tally)?;
    refuse_elements(tally)
}
