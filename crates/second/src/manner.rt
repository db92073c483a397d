// How the second signer signs: as it should, or wrongly in one way.
use crate::numbers::at;
use crate::packed::pack;
use std::alloc::{AllocError, Global};

// A packed vector of a round, named apart from the kit's kinds of vectors.
#[derive(Clone, Copy, PartialEq, Eq, Debug)]
pub enum Vector {
    T1,
    E1,
    Response,
}

#[derive(Clone, Copy, PartialEq, Eq, Debug)]
pub enum Manner {
    Honest,
    // the vector's first 0, or its first element where there is none, is written as 31
    ThirtyOne { round: usize, vector: Vector },
    // the highest bit of the vector's last byte is set
    PadBit { round: usize, vector: Vector },
    // the carried commitment is that of the answered side
    SwappedCommitment { round: usize },
    // the round answers to the challenge of the next one
    AlphaOfNext { round: usize },
    // round 1 carries what round 0 carries
    CopiedRound,
    // the commitments stand before the responses
    OtherOrder,
    // a digest is made with another label
    WrongLabel { label: u8 },
    // round 1 draws with the seed of round 0
    ReusedSeed,
    // the seed of a round is made with the round's number in one byte
    ShortIndex,
}

// Writes 31 in place of the first 0, or of the first element.
fn put_31(v: &mut [u8]) {
    let first = v.iter().position(|&x| x == 0).unwrap_or(0);
    if let Some(x) = v.get_mut(first) {
        *x = 31;
    }
}

impl Manner {
    // The label that a digest is made with.
    pub fn label(self, label: u8) -> u8 {
        if self == (Manner::WrongLabel { label }) {
            label.wrapping_add(64)
        } else {
            label
        }
    }

    // Turns the challenges into those that the rounds answer to.
    pub(crate) fn turn_alphas(self, alphas: &mut [u8]) {
        if let Manner::AlphaOfNext { round } = self {
            let next = at(alphas, round.wrapping_add(1));
            if let Some(alpha) = alphas.get_mut(round) {
                *alpha = next;
            }
        }
    }

    // A vector of a round as the signature carries it.
    pub fn write(
        self,
        heap: Global,
        round: usize,
        vector: Vector,
        mut v: Vec<u8>,
    ) -> Result<Vec<u8>, AllocError> {
        if self == (Manner::ThirtyOne { round, vector }) {
            put_31(v.as_mut_slice());
        }
        let mut bytes = pack(heap, v.as_slice())?;
        if self == (Manner::PadBit { round, vector }) {
            if let Some(x) = bytes.last_mut() {
                *x |= 0x80;
            }
        }
        Ok(bytes)
    }
}
