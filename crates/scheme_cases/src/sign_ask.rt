// Signing asked under the bench suite: what it tells, and what it leaves in the answer and in the secret buffer.
use crate::Cases;
use crate::example::SMALL;
use crate::kit::{Room, Scheme};
use crate::stage::pattern;
use params::Set;
use second::manner::Manner;
use std::io;
use suites::Named;
use tally::{Told, all};

// What signing is asked: a secret key of `key` bytes, the first 32 of them k and the others s, and a message of so many bytes.
#[derive(Clone, Copy)]
pub struct Ask {
    pub set: Set,
    pub room: Room,
    pub key: usize,
    pub k: u8,
    pub s: u8,
    pub message: usize,
}

pub const GOOD: Ask = Ask {
    set: SMALL,
    room: Room {
        map: 66,
        list: 64,
        secret: 1024,
        answer: 99,
    },
    key: 64,
    k: 0,
    s: 0,
    message: 0,
};

// Everything wrong that comes after the set: message, buffers, key and its seeds.
pub const BAD: Ask = Ask {
    set: SMALL,
    room: Room::NONE,
    key: 63,
    k: 0xf6,
    s: 0xf7,
    message: 65_537,
};

pub fn ask_bench(tally: &mut Cases<'_>, name: &str, ask: Ask, want: Told) -> io::Result<()> {
    let heap = tally.rt.alloc();
    let scheme = Scheme {
        suite: Named::Bench,
        set: ask.set,
    };
    let mut key = vec![in heap; ask.k; ask.key.min(32)]?;
    key.resize(ask.key, ask.s)?;
    let message = pattern(heap, 1, 7, ask.message)?;
    let signed = scheme.sign_in(heap, ask.room, key.as_slice(), message.as_slice())?;
    tally.count(name, signed.told == want)?;
    tally.count("signing: the secret buffer", signed.clean)?;
    if want.is_err() {
        let zeros = all(signed.answer.as_slice(), 0) && signed.answer.len() == ask.room.answer;
        return tally.count("signing: zeros where refused", zeros);
    }
    let second = scheme.second(heap);
    let sig = second.sign(key.as_slice(), message.as_slice(), Manner::Honest)?;
    let same = signed.answer.as_slice() == sig.as_slice();
    tally.count("signing: the signature", same)
}
