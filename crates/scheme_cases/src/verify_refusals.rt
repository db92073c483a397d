// Verification: the refusals of set, message and buffers, at their places and in their order.
use crate::Cases;
use crate::kit::Room;
use crate::stage::pattern;
use crate::verify_ask::{ROOM, ask_in, fresh, spoiled};
use params::Set;
use std::io;

fn refuse_sets(tally: &mut Cases<'_>) -> io::Result<()> {
    let heap = tally.rt.alloc();
    let mut good = fresh(heap)?;
    let mut bad = spoiled(heap)?;
    let top = usize::MAX;
    for (n, m, r) in [
        (0usize, 3usize, 2usize),
        (65, 3, 2),
        (top, 3, 2),
        (2, 0, 2),
        (2, 65, 2),
        (2, top, 2),
        (2, 3, 0),
        (2, 3, 270),
        (2, 3, top),
    ] {
        good.scheme.set = Set { n, m, r };
        bad.scheme.set = Set { n, m, r };
        ask_in(tally, "verification: the set", &good, ROOM, Err((1, 3, 0)))?;
        let name = "verification: the set first";
        ask_in(tally, name, &bad, Room::NONE, Err((1, 3, 0)))?;
    }
    Ok(())
}

fn refuse_messages(tally: &mut Cases<'_>) -> io::Result<()> {
    let heap = tally.rt.alloc();
    let mut stage = fresh(heap)?;
    stage.message = pattern(heap, 0, 1, 65_537)?;
    let name = "verification: a long message";
    ask_in(tally, name, &stage, ROOM, Err((2, 3, 0)))?;
    let bad = spoiled(heap)?;
    let name = "verification: the message before the buffers";
    ask_in(tally, name, &bad, Room::NONE, Err((2, 3, 0)))?;
    stage.message = pattern(heap, 0, 1, 65_536)?;
    let name = "verification: another message";
    ask_in(tally, name, &stage, ROOM, Err((12, 3, 0)))
}

fn refuse_rooms(tally: &mut Cases<'_>) -> io::Result<()> {
    let heap = tally.rt.alloc();
    let good = fresh(heap)?;
    let mut late = spoiled(heap)?;
    late.message = pattern(heap, 0, 1, 65_536)?;
    let exact = Room::of(good.scheme.set);
    tally.count("the room of (2, 3, 2)", exact.map == 80)?;
    for (map, list, place) in [
        (79usize, 128usize, 1usize),
        (80, 127, 2),
        (79, 127, 1),
        (0, 0, 1),
        (0, 500, 1),
        (500, 0, 2),
    ] {
        let room = Room {
            map,
            list,
            ..Room::NONE
        };
        let want = Err((3, 3, place));
        ask_in(tally, "verification: a buffer", &good, room, want)?;
        let name = "verification: a buffer before the key";
        ask_in(tally, name, &late, room, want)?;
    }
    let room = Room {
        map: 81,
        list: 300,
        ..Room::NONE
    };
    ask_in(tally, "verification: more room", &good, room, Ok(()))
}

pub fn run_verify_refusals(tally: &mut Cases<'_>) -> io::Result<()> {
    refuse_sets(tally)?;
    refuse_messages(tally)?;
    refuse_rooms(tally)
}
