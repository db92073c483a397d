// Verification asked of what stands on a stage, and stages that are spoiled.
use crate::Cases;
use crate::kit::Room;
use crate::stage::{Stage, pattern};
use params::Set;
use std::alloc::{AllocError, Global};
use std::io;
use suites::Named;
use tally::Told;

// B(15) = 80 and 64·2 = 128.
pub const ROOM: Room = Room {
    map: 80,
    list: 128,
    ..Room::NONE
};

// An honest stage, to be spoiled.
pub fn fresh(heap: Global) -> io::Result<Stage> {
    Stage::of_patterns(heap, Named::Keccak, Set { n: 2, m: 3, r: 2 }, 50, 20)
}

// Verifies what stands on the stage; the second signer, which is lent no buffer, agrees where none is refused.
pub fn ask_in(
    tally: &mut Cases<'_>,
    name: &str,
    stage: &Stage,
    room: Room,
    want: Told,
) -> io::Result<()> {
    let heap = tally.rt.alloc();
    let key = stage.key.as_slice();
    let message = stage.message.as_slice();
    let sig = stage.sig.as_slice();
    let told = stage.scheme.verify_in(heap, room, key, message, sig)?;
    stage.count(tally, name, told == want)?;
    if matches!(want, Err((3, ..))) {
        return Ok(());
    }
    let other = stage.scheme.judged(heap, key, message, sig)?;
    stage.count(tally, "the second verdict", other == want)
}

// A byte less.
fn shorter(heap: Global, bytes: &[u8]) -> Result<Vec<u8>, AllocError> {
    let shorter = bytes.split_last().map_or(bytes, |(_, front)| front);
    Vec::from_slice(heap, shorter)
}

// A byte less, a byte more, and none.
pub fn of_other_lengths(heap: Global, bytes: &[u8]) -> Result<[Vec<u8>; 3], AllocError> {
    let longer = [bytes, &[0]].concat(heap)?;
    Ok([shorter(heap, bytes)?, longer, Vec::new(heap)])
}

// A stage on which message, key and signature are wrong.
pub fn spoiled(heap: Global) -> io::Result<Stage> {
    let mut stage = fresh(heap)?;
    stage.message = pattern(heap, 0, 1, 65_537)?;
    stage.key = shorter(heap, stage.key.as_slice())?;
    stage.sig = shorter(heap, stage.sig.as_slice())?;
    Ok(stage)
}
