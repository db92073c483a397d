// Signing: the refusals of set and message, in their order.
use crate::Cases;
use crate::kit::Room;
use crate::sign_ask::{Ask, BAD, GOOD, ask_bench};
use params::{MQDSS_31_64, Set};
use std::io;

fn refuse_sets(tally: &mut Cases<'_>) -> io::Result<()> {
    let room = Room {
        map: 160_000,
        list: 20_000,
        secret: 1024,
        answer: 40_952,
    };
    let top = usize::MAX;
    for (n, m, r) in [
        (0usize, 1usize, 1usize),
        (65, 1, 1),
        (top, 1, 1),
        (1, 0, 1),
        (1, 65, 1),
        (1, top, 1),
        (1, 1, 0),
        (1, 1, 270),
        (1, 1, top),
        (65, 64, 269),
        (64, 65, 269),
        (64, 64, 270),
    ] {
        let set = Set { n, m, r };
        for (name, ask) in [
            ("signing: the set", Ask { set, ..GOOD }),
            ("signing: the set, in room", Ask { set, room, ..GOOD }),
            ("signing: the set first", Ask { set, ..BAD }),
        ] {
            ask_bench(tally, name, ask, Err((1, 3, 0)))?;
        }
    }
    let largest = Ask {
        set: MQDSS_31_64,
        ..GOOD
    };
    ask_bench(tally, "signing: the largest set", largest, Err((3, 3, 1)))
}

fn refuse_messages(tally: &mut Cases<'_>) -> io::Result<()> {
    let most = Ask {
        message: 65_536,
        ..GOOD
    };
    ask_bench(tally, "signing: the longest message", most, Ok(()))?;
    let long = Ask {
        message: 65_537,
        ..GOOD
    };
    ask_bench(tally, "signing: a long message", long, Err((2, 3, 0)))?;
    let name = "signing: the message before the buffers";
    ask_bench(tally, name, BAD, Err((2, 3, 0)))
}

pub fn run_sign_refusals(tally: &mut Cases<'_>) -> io::Result<()> {
    refuse_sets(tally)?;
    refuse_messages(tally)
}
