// The signature's bytes, section by section.
ghost use Rattle.std.specs.Prelude.{◌≡◌, ◌+◌, ◌*◌, ◌%◌, ◌++◌, length, take, Ok, slice_index};
ghost use Rattle.params.specs.Sizes.{signature_length};
ghost use Rattle.suite.specs.Drawn.{Elements};
ghost use Rattle.scheme.specs.Signing.{pools_of, answers, responses};
ghost use Rattle.scheme.specs.Verifying.{answers_length};
ghost use Rattle.signing.specs.Steps.{carried};

use crate::response::carry;
use crate::signer::{Desk, Signer};
use field::Field;
use suite::Suite;
use wire::VECTORS;
use wire::layout::Layout;

impl<F: Field, S: Suite> Signer<'_, F, S> {
    // R, σ0, and the first answers.
    pub fn write_first(&self, base: &[u8; 32], alphas: &[u8], desk: &mut Desk, answer: &mut [u8])
        requires pools { pools_of F.Field.coding (S.Suite.meaning self.now.instance.suite.now) self.now.instance.set.set self.now.k.now self.now.d.now ≡ Ok tt }
        requires alphas { Elements F.Field.coding.q self.now.instance.set.set.r alphas.now }
        requires answer { length answer.old ≡ signature_length F.Field.coding.bits self.now.instance.set.set }
        ensures { take (64 + answers_length F.Field.coding.bits self.now.instance.set.set) answer.new ≡ self.now.randomizer.now ++ (base.now ++ answers F.Field.coding (S.Suite.meaning self.now.instance.suite.now) self.now.instance.set.set self.now.k.now self.now.d.now self.now.instance.map.cs.now (λ i. slice_index alphas.now i)) }
    {
        let set = self.instance.set;
        let layout = Layout {
            set,
            encoding: F::encoding(),
        };
        let end = VECTORS + layout.answers_len();
        let randomizer = self.randomizer;
        answer[0..32].copy_from_slice(randomizer);
        answer[32..64].copy_from_slice(base);
        // not refused: each round draws what it drew before
        self.answer(alphas, desk, &mut answer[VECTORS..end])
            .unwrap();
    }

    // The responses and the other sides' commitments, behind what is written.
    pub fn write_second(&self, list: &[u8], bits: &[u8], desk: &mut Desk, answer: &mut [u8])
        requires pools { pools_of F.Field.coding (S.Suite.meaning self.now.instance.suite.now) self.now.instance.set.set self.now.k.now self.now.d.now ≡ Ok tt }
        requires list { length list.now ≡ self.now.instance.set.set.r * 64 }
        requires bits { length bits.now ≡ self.now.instance.set.set.r }
        requires answer { length answer.old ≡ signature_length F.Field.coding.bits self.now.instance.set.set }
        ensures { answer.new ≡ take (64 + answers_length F.Field.coding.bits self.now.instance.set.set) answer.old ++ (responses F.Field.coding (S.Suite.meaning self.now.instance.suite.now) self.now.instance.set.set self.now.k.now self.now.d.now self.now.s.now (λ i. slice_index bits.now i % 2) ++ carried self.now.instance.set.set list.now bits.now) }
    {
        let set = self.instance.set;
        let layout = Layout {
            set,
            encoding: F::encoding(),
        };
        let at = VECTORS + layout.answers_len();
        let end = at + layout.responses_len();
        // not refused either
        self.respond(bits, desk, &mut answer[at..end]).unwrap();
        carry(set, list, bits, &mut answer[end..]);
    }
}
