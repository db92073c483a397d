// The calls under test, in buffers that hold something else; and what the second signer says of the same.
use crate::spoiling::packed_len;
use gf31::Gf31;
use params::Set;
use refusal::Refusal;
use second::refused::Refused;
use second::trouble::Trouble;
use second::{Params, Signer};
use signing::sign;
use std::alloc::Global;
use std::io;
use suite::Suite;
use tally::{Told, all};
use verification::verify;

// The lengths of the lent buffers.
#[derive(Clone, Copy)]
pub struct Room {
    pub map: usize,
    pub list: usize,
    pub secret: usize,
    pub answer: usize,
}

impl Room {
    pub const NONE: Room = Room {
        map: 0,
        list: 0,
        secret: 0,
        answer: 0,
    };

    // The lengths that a set wants, worked out here and not asked of the kit.
    pub fn of(set: Set) -> Room {
        let pairs = set.n.saturating_mul(set.n.saturating_add(1)) / 2;
        let count = set.m.saturating_mul(pairs.saturating_add(set.n));
        let round = packed_len(set.n)
            .saturating_mul(2)
            .saturating_add(packed_len(set.m))
            .saturating_add(32);
        Room {
            map: count.saturating_add(count / 8).saturating_add(64),
            list: set.r.saturating_mul(64),
            secret: 1024,
            answer: set.r.saturating_mul(round).saturating_add(64),
        }
    }
}

// What signing told and wrote, and whether the secret buffer is zeros.
#[derive(Drop)]
pub struct Signed {
    pub told: Told,
    pub answer: Vec<u8>,
    pub clean: bool,
}

// A suite and a set, under which both signers are called.
#[derive(Clone, Copy)]
pub struct Scheme<S> {
    pub suite: S,
    pub set: Set,
}

impl<S: Suite> Scheme<S> {
    pub fn sign_in(
        &self,
        heap: Global,
        room: Room,
        key: &[u8],
        message: &[u8],
    ) -> io::Result<Signed> {
        let mut map = vec![in heap; 0xa5u8; room.map]?;
        let mut list = vec![in heap; 0xa5u8; room.list]?;
        let mut secret = vec![in heap; 0xa5u8; room.secret]?;
        let mut answer = vec![in heap; 0xa5u8; room.answer]?;
        let told = sign::<Gf31, S>(
            self.set,
            &self.suite,
            message,
            map.as_mut_slice(),
            list.as_mut_slice(),
            secret.as_mut_slice(),
            key,
            answer.as_mut_slice(),
        )
        .map_err(Refusal::numbers);
        Ok(Signed {
            told,
            answer,
            clean: all(secret.as_slice(), 0),
        })
    }

    pub fn verify_in(
        &self,
        heap: Global,
        room: Room,
        key: &[u8],
        message: &[u8],
        sig: &[u8],
    ) -> io::Result<Told> {
        let mut map = vec![in heap; 0xa5u8; room.map]?;
        let mut list = vec![in heap; 0xa5u8; room.list]?;
        let told = verify::<Gf31, S>(
            self.set,
            &self.suite,
            message,
            map.as_mut_slice(),
            list.as_mut_slice(),
            key,
            sig,
        )
        .map_err(Refusal::numbers);
        Ok(told)
    }

    // The second signer. Its `Params` are no `From` of `Set`, since neither type is this crate's.
    pub fn second(&self, heap: Global) -> Signer<'_, S> {
        let Set { n, m, r } = self.set;
        Signer {
            heap,
            suite: &self.suite,
            p: Params { n, m, r },
        }
    }

    // What the second signer says of a signature.
    pub fn judged(&self, heap: Global, key: &[u8], message: &[u8], sig: &[u8]) -> io::Result<Told> {
        match self.second(heap).judge(key, message, sig) {
            Ok(()) => Ok(Ok(())),
            Err(refused) => Ok(Err(numbers_of(refused)?)),
        }
    }
}

// No `TryFrom`, since neither type is this crate's.
fn numbers_of(refused: Refused) -> Result<(u8, u8, usize), Trouble> {
    match refused {
        Refused::BadSet => Ok((1, 3, 0)),
        Refused::MessageTooLong => Ok((2, 3, 0)),
        Refused::KeyLength => Ok((7, 3, 0)),
        Refused::KeyElement { index } => Ok((8, 1, index)),
        Refused::SignatureLength => Ok((9, 3, 0)),
        Refused::Element { place } => Ok((10, 1, place)),
        Refused::Pad { place } => Ok((11, 1, place)),
        Refused::Wrong => Ok((12, 3, 0)),
        Refused::Trouble(Trouble::Few { label }) => Ok((17, 2, label as usize)),
        Refused::Trouble(trouble) => Err(trouble),
    }
}
