// What the responses of a signature open, and whether σ0 is the digest of the list that comes of it.
use crate::Signer;
use crate::key::seed_at;
use crate::layout::Span;
use crate::numbers::{minus, part, times};
use crate::packed::unpack;
use crate::trouble::Trouble;
use std::alloc::AllocError;
use suite::Suite;

// A signature, with the map and the vector of the key.
#[derive(Clone, Copy)]
pub struct Claim<'a> {
    pub map: &'a [u8],
    pub v: &'a [u8],
    pub sig: &'a [u8],
}

impl<S: Suite> Signer<'_, S> {
    // The elements of a vector of the signature.
    fn read(&self, sig: &[u8], span: Span) -> Result<Vec<u8>, AllocError> {
        unpack(self.heap, span.bytes(sig), span.count)
    }

    // What round i opens: d(0, r ‖ (α·r − t) ‖ (α·F(r) − e)) where its bit is 0, and d(1, r ‖ (α·(v − F(r)) − G(t, r) − e)) where it is 1.
    fn opened(
        &self,
        claim: Claim<'_>,
        i: usize,
        alpha: u8,
        bit: bool,
    ) -> Result<[u8; 32], Trouble> {
        let heap = self.heap;
        let places = self.p.places(i);
        let t = self.read(claim.sig, places.t1)?;
        let e = self.read(claim.sig, places.e1)?;
        let r = self.read(claim.sig, places.response)?;
        let f = self.value(claim.map, r.as_slice())?;
        if bit {
            let rest = minus(heap, claim.v, f.as_slice())?;
            let rest = times(heap, alpha, rest.as_slice())?;
            let g = self.polar(claim.map, t.as_slice(), r.as_slice())?;
            let rest = minus(heap, rest.as_slice(), g.as_slice())?;
            let rest = minus(heap, rest.as_slice(), e.as_slice())?;
            self.commit(1, &[r.as_slice(), rest.as_slice()])
        } else {
            let left = times(heap, alpha, r.as_slice())?;
            let left = minus(heap, left.as_slice(), t.as_slice())?;
            let right = times(heap, alpha, f.as_slice())?;
            let right = minus(heap, right.as_slice(), e.as_slice())?;
            self.commit(0, &[r.as_slice(), left.as_slice(), right.as_slice()])
        }
    }

    // c0 ‖ c1 of every round.
    fn relist(&self, claim: Claim<'_>, alphas: &[u8], bits: &[bool]) -> Result<Vec<u8>, Trouble> {
        let mut list = Vec::new(self.heap);
        for (i, (&alpha, &bit)) in alphas.iter().zip(bits).enumerate() {
            let carried = seed_at(claim.sig, self.p.places(i).other);
            let opened = self.opened(claim, i, alpha, bit)?;
            let (c0, c1) = if bit {
                (carried, opened)
            } else {
                (opened, carried)
            };
            list.extend_from_slice(&c0)?;
            list.extend_from_slice(&c1)?;
        }
        Ok(list)
    }

    pub(crate) fn list_matches(&self, claim: Claim<'_>, message: &[u8]) -> Result<bool, Trouble> {
        let s0 = seed_at(claim.sig, 32);
        let s1 = part(claim.sig, 64, self.p.first_bytes());
        let d = self.hash(4, &[&seed_at(claim.sig, 0), message])?;
        let h1 = self.hash(5, &[&d, &s0])?;
        let alphas = self.draw(11, &h1, self.p.r)?;
        let h2 = self.hash(6, &[&d, &s0, &h1, s1])?;
        let bits = self.bits(12, &h2)?;
        let list = self.relist(claim, alphas.as_slice(), bits.as_slice())?;
        Ok(self.hash(2, &[list.as_slice()])? == s0)
    }
}
