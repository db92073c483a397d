// Signing: the refusals of buffers, key and drawings, at their places and in their order.
use crate::Cases;
use crate::kit::Room;
use crate::sign_ask::{Ask, GOOD, ask_bench};
use std::io;

fn refuse_drawings(tally: &mut Cases<'_>) -> io::Result<()> {
    let both = Ask {
        k: 0xf6,
        s: 0xf7,
        ..GOOD
    };
    for key in [0usize, 63, 65, 128] {
        let ask = Ask { key, ..GOOD };
        ask_bench(tally, "signing: the key", ask, Err((7, 3, 0)))?;
        let ask = Ask { key, ..both };
        let name = "signing: the key before the drawings";
        ask_bench(tally, name, ask, Err((7, 3, 0)))?;
    }
    // with label 9 a seed of F6 gives nothing but 31, with label 8 one of F7; 9 comes first
    let ask = Ask { k: 0xf6, ..GOOD };
    ask_bench(tally, "signing: label 9", ask, Err((17, 2, 9)))?;
    let ask = Ask { s: 0xf7, ..GOOD };
    ask_bench(tally, "signing: label 8", ask, Err((17, 2, 8)))?;
    ask_bench(tally, "signing: label 9 before 8", both, Err((17, 2, 9)))
}

fn refuse_rooms(tally: &mut Cases<'_>) -> io::Result<()> {
    for (map, list, secret, answer, place) in [
        (65usize, 64usize, 1024usize, 99usize, 1usize),
        (66, 63, 1024, 99, 2),
        (66, 64, 1023, 99, 3),
        (66, 64, 1024, 98, 4),
        (66, 64, 1024, 100, 4),
        (0, 0, 0, 0, 1),
        (65, 63, 1023, 100, 1),
        (66, 63, 1023, 100, 2),
        (66, 64, 1023, 98, 3),
        (1000, 1000, 1025, 198, 4),
    ] {
        let room = Room {
            map,
            list,
            secret,
            answer,
        };
        let ask = Ask { room, ..GOOD };
        ask_bench(tally, "signing: a buffer", ask, Err((3, 3, place)))?;
        let late = Ask { key: 63, ..ask };
        let name = "signing: a buffer before the key";
        ask_bench(tally, name, late, Err((3, 3, place)))?;
    }
    let room = Room {
        map: 67,
        list: 65,
        secret: 1025,
        answer: 99,
    };
    let ask = Ask { room, ..GOOD };
    ask_bench(tally, "signing: in more room", ask, Ok(()))
}

pub fn run_sign_rooms(tally: &mut Cases<'_>) -> io::Result<()> {
    refuse_rooms(tally)?;
    refuse_drawings(tally)
}
