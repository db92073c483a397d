// Signing: R ‖ σ0 ‖ σ1 ‖ σ2.
use crate::Signer;
use crate::key::seeds;
use crate::manner::Manner;
use crate::round::{Desk, Round};
use crate::trouble::Trouble;
use std::alloc::{AllocError, Global};
use suite::Suite;

// c0 ‖ c1 of every round.
fn list_of(heap: Global, rounds: &[Round]) -> Result<Vec<u8>, AllocError> {
    rounds
        .iter()
        .flat_map(|round| [round.c0, round.c1])
        .flatten()
        .collect(heap)
}

impl<S: Suite> Signer<'_, S> {
    pub fn sign(&self, secret: &[u8], message: &[u8], manner: Manner) -> Result<Vec<u8>, Trouble> {
        let (k, seed) = seeds(secret)?;
        let s = self.draw(9, &k, self.p.n)?;
        let map = self.map_of(&seed)?;
        let r = self.hash(manner.label(3), &[&k, message])?;
        let d = self.hash(manner.label(4), &[&r, message])?;
        let desk = Desk {
            manner,
            k,
            d,
            s,
            map,
        };
        let rounds: Vec<Round> = (0..self.p.r)
            .map(|i| self.open_round(&desk, i))
            .try_collect(self.heap)?;
        let rounds = rounds.as_slice();
        let list = list_of(self.heap, rounds)?;
        let s0 = self.hash(manner.label(2), &[list.as_slice()])?;
        let h1 = self.hash(manner.label(5), &[&d, &s0])?;
        let mut alphas = self.draw(11, &h1, self.p.r)?;
        manner.turn_alphas(alphas.as_mut_slice());
        let s1 = self.first_responses(&desk, rounds, alphas.as_slice())?;
        let h2 = self.hash(manner.label(6), &[&d, &s0, &h1, s1.as_slice()])?;
        let bits = self.bits(12, &h2)?;
        let shown = self.responses(&desk, rounds, bits.as_slice())?;
        let carried = self.others(&desk, rounds, bits.as_slice())?;
        let (front, back) = if manner == Manner::OtherOrder {
            (carried, shown)
        } else {
            (shown, carried)
        };
        let parts: [&[u8]; 5] = [&r, &s0, s1.as_slice(), front.as_slice(), back.as_slice()];
        Ok(parts.concat(self.heap)?)
    }
}
