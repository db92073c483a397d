// One round: what is drawn, what is committed to, and the first response.
use crate::Signer;
use crate::manner::{Manner, Vector};
use crate::numbers::{minus, part, plus, times};
use crate::packed::pack;
use crate::trouble::Trouble;
use suite::Suite;

// What a signer has in hand.
#[derive(Drop)]
pub struct Desk {
    pub manner: Manner,
    pub k: [u8; 32],
    pub d: [u8; 32],
    pub s: Vec<u8>,
    pub map: Vec<u8>,
}

#[derive(Drop)]
pub struct Round {
    pub r0: Vec<u8>,
    pub t0: Vec<u8>,
    pub e0: Vec<u8>,
    pub r1: Vec<u8>,
    pub c0: [u8; 32],
    pub c1: [u8; 32],
}

impl<S: Suite> Signer<'_, S> {
    // d(7, K ‖ D ‖ i), i in two bytes
    fn seed_of(&self, desk: &Desk, i: usize) -> Result<[u8; 32], Trouble> {
        let i = if desk.manner == Manner::ReusedSeed && i == 1 {
            0
        } else {
            i
        };
        let index = ((i % 65_536) as u16).to_le_bytes();
        let width = if desk.manner == Manner::ShortIndex {
            1
        } else {
            2
        };
        self.hash(desk.manner.label(7), &[&desk.k, &desk.d, &index[..width]])
    }

    pub(crate) fn open_round(&self, desk: &Desk, i: usize) -> Result<Round, Trouble> {
        let heap = self.heap;
        let n = self.p.n;
        let m = self.p.m;
        let seed = self.seed_of(desk, i)?;
        let pool = self.draw(10, &seed, n.wrapping_mul(2).wrapping_add(m))?;
        let r0 = Vec::from_slice(heap, part(pool.as_slice(), 0, n))?;
        let t0 = Vec::from_slice(heap, part(pool.as_slice(), n, n))?;
        let e0 = Vec::from_slice(heap, part(pool.as_slice(), n.wrapping_mul(2), m))?;
        let r1 = minus(heap, desk.s.as_slice(), r0.as_slice())?;
        let g = self.polar(desk.map.as_slice(), t0.as_slice(), r1.as_slice())?;
        let g = plus(heap, g.as_slice(), e0.as_slice())?;
        let c0 = self.commit(
            desk.manner.label(0),
            &[r0.as_slice(), t0.as_slice(), e0.as_slice()],
        )?;
        let c1 = self.commit(desk.manner.label(1), &[r1.as_slice(), g.as_slice()])?;
        Ok(Round {
            r0,
            t0,
            e0,
            r1,
            c0,
            c1,
        })
    }

    // The digest of vectors, each packed, one behind the other.
    pub(crate) fn commit(&self, label: u8, vectors: &[&[u8]]) -> Result<[u8; 32], Trouble> {
        let mut whole = Vec::new(self.heap);
        for v in vectors {
            let bytes = pack(self.heap, v)?;
            whole.extend_from_slice(bytes.as_slice())?;
        }
        self.hash(label, &[whole.as_slice()])
    }

    // t1 = α·r0 − t0 and e1 = α·F(r0) − e0, as round `i` carries them.
    pub(crate) fn first_response(
        &self,
        desk: &Desk,
        i: usize,
        round: &Round,
        alpha: u8,
    ) -> Result<Vec<u8>, Trouble> {
        let heap = self.heap;
        let scaled = times(heap, alpha, round.r0.as_slice())?;
        let t1 = minus(heap, scaled.as_slice(), round.t0.as_slice())?;
        let f = self.value(desk.map.as_slice(), round.r0.as_slice())?;
        let scaled = times(heap, alpha, f.as_slice())?;
        let e1 = minus(heap, scaled.as_slice(), round.e0.as_slice())?;
        let mut out = desk.manner.write(heap, i, Vector::T1, t1)?;
        let tail = desk.manner.write(heap, i, Vector::E1, e1)?;
        out.extend_from_slice(tail.as_slice())?;
        Ok(out)
    }
}
