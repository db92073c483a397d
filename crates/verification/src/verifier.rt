// The rounds of a signature under its challenges: of each, the commitment that the response opens.
ghost use Rattle.std.specs.Prelude.{◌≡◌, ◌*◌, ◌%◌, ◌<◌, length, slice_index};
ghost use Rattle.std.specs.List.{flat_map};
ghost use Rattle.field.specs.Codes.{Vector};
ghost use Rattle.suite.specs.Drawn.{Elements};
ghost use Rattle.scheme.specs.Rounds.{rounds};
ghost use Rattle.scheme.specs.Verifying.{recomputed, commitments};

use crate::list::Commitments;
use crate::opening::Opening;
use crate::signature::Signature;
use field::Field;
use params::Set;
use scheme::sizes::ROUNDS;
use scheme::{Instance, Round};
use suite::Suite;
use wire::locate::Kind;

// A signature under a key with the vector v, with the challenges α and the bytes whose lowest bits are the second challenges. The two
// stand apart as they are drawn, each from a stream of its own.
#[derive(Drop)]
pub struct Verifier<'a, F: Field, S: Suite> {
    pub instance: &'a Instance<'a, F, S>,
    pub signature: &'a Signature<'a, F>,
    pub v: &'a [u8],
    pub alphas: &'a [u8],
    pub bits: &'a [u8],
    pub ghost same: { signature.now.set.set ≡ instance.now.set.set },
    pub ghost of_v: { Vector F.Field.coding.q instance.now.set.set.m v.now },
    pub ghost of_alphas: { Elements F.Field.coding.q instance.now.set.set.r alphas.now },
    pub ghost of_bits: { length bits.now ≡ instance.now.set.set.r },
}

impl<F: Field, S: Suite> Verifier<'_, F, S> {
    // The commitment of a round that its response opens.
    #[tactic(auto, unfolding(scheme::specs::Verifying::recomputed))]
    fn open(&self, round: usize) -> [u8; 32]
        requires { round < self.now.instance.now.set.set.r }
        ensures { result ≡ recomputed F.Field.coding (S.Suite.meaning self.now.instance.now.suite.now) self.now.instance.now.set.set self.now.instance.now.map.cs.now self.now.v.now self.now.signature.now.bytes.now (λ i. slice_index self.now.alphas.now i) (λ i. slice_index self.now.bits.now i % 2) round }
    {
        let Set { n, m, r: _ } = self.instance.set.set;
        // Arrays of which the set takes a part: no call takes heap.
        let mut t = [0u8; 64];
        let mut e = [0u8; 64];
        let mut r = [0u8; 64];
        let t = &mut t[0..n];
        let e = &mut e[0..m];
        let r = &mut r[0..n];
        self.signature.load(Kind::T1, round, t);
        self.signature.load(Kind::E1, round, e);
        self.signature.load(Kind::Response, round, r);
        let opening = Opening {
            round: Round {
                instance: self.instance,
                r,
                t,
                e,
            },
            v: self.v,
            alpha: self.alphas[round],
        };
        if self.bits[round] % 2 == 0 {
            opening.commitment_0()
        } else {
            opening.commitment_1()
        }
    }

    // The commitments that the responses open, of all rounds.
    fn open_all(&self, half: &mut [[u8; 32]])
        requires { length half.old ≡ self.now.instance.now.set.set.r }
        ensures { flat_map (λ opened. opened) half.new ≡ rounds self.now.instance.now.set.set.r (recomputed F.Field.coding (S.Suite.meaning self.now.instance.now.suite.now) self.now.instance.now.set.set self.now.instance.now.map.cs.now self.now.v.now self.now.signature.now.bytes.now (λ i. slice_index self.now.alphas.now i) (λ i. slice_index self.now.bits.now i % 2)) }
    {
        for (i, place) in half.iter_mut().enumerate() {
            *place = self.open(i);
        }
    }

    // The commitment list: both commitments of every round.
    pub fn write_list(&self, list: &mut [u8])
        requires { length list.old ≡ self.now.instance.now.set.set.r * 64 }
        ensures { list.new ≡ commitments F.Field.coding (S.Suite.meaning self.now.instance.now.suite.now) self.now.instance.now.set.set self.now.instance.now.map.cs.now self.now.v.now self.now.signature.now.bytes.now (λ i. slice_index self.now.alphas.now i) (λ i. slice_index self.now.bits.now i % 2) }
    {
        // Arrays of which the set takes a part: no call takes heap.
        let mut half = [[0u8; 32]; ROUNDS];
        let half = &mut half[0..self.instance.set.set.r];
        self.open_all(half);
        let commitments = Commitments {
            layout: self.signature.layout(),
            signature: self.signature.bytes,
            half: half.as_flattened(),
        };
        // By index: after a loop that lends out chunks of `list`, a proof knows nothing of what stands in them.
        for i in 0..self.instance.set.set.r {
            let at = i * 64;
            commitments.write_round(i, self.bits[i] % 2, &mut list[at..at + 64]);
        }
    }
}
