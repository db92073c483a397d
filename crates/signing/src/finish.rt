// The rest of a signature, once its commitment list stands and its challenges are drawn.
ghost use Rattle.std.specs.Prelude.{◌≡◌, ◌*◌, ◌++◌, length, Ok};
ghost use Rattle.params.specs.Sizes.{signature_length};
ghost use Rattle.suite.specs.Drawn.{Elements};
ghost use Rattle.scheme.specs.Rounds.{taken};
ghost use Rattle.scheme.specs.Challenges.{h1_of};
ghost use Rattle.scheme.specs.Signing.{pools_of, σ0, list as list_of};
ghost use Rattle.signing.specs.Steps.{behind_r};

use crate::signer::{Desk, Signer};
use field::Field;
use scheme::challenge::challenge_bits;
use scheme::sizes::ROUNDS;
use suite::Suite;
use wire::VECTORS;
use wire::layout::Layout;

impl<F: Field, S: Suite> Signer<'_, F, S> {
    // Writes R ‖ σ0 ‖ σ1 ‖ σ2.
    pub fn finish(
        &self,
        list: &[u8],
        base: &[u8; 32],
        h1: &[u8; 32],
        alphas: &[u8],
        desk: &mut Desk,
        answer: &mut [u8],
    )
        requires pools { pools_of F.Field.coding (S.Suite.meaning self.now.instance.suite.now) self.now.instance.set.set self.now.k.now self.now.d.now ≡ Ok tt }
        requires long { length list.now ≡ self.now.instance.set.set.r * 64 }
        requires list { list.now ≡ list_of F.Field.coding (S.Suite.meaning self.now.instance.suite.now) self.now.instance.set.set self.now.instance.map.cs.now self.now.s.now self.now.k.now self.now.d.now }
        requires base { base.now ≡ σ0 F.Field.coding (S.Suite.meaning self.now.instance.suite.now) self.now.instance.set.set self.now.instance.map.cs.now self.now.s.now self.now.k.now self.now.d.now }
        requires h1 { h1.now ≡ h1_of (S.Suite.meaning self.now.instance.suite.now) self.now.d.now (σ0 F.Field.coding (S.Suite.meaning self.now.instance.suite.now) self.now.instance.set.set self.now.instance.map.cs.now self.now.s.now self.now.k.now self.now.d.now) }
        requires elements { Elements F.Field.coding.q self.now.instance.set.set.r alphas.now }
        requires alphas { alphas.now ≡ taken F.Field.coding (S.Suite.meaning self.now.instance.suite.now) 11 h1.now self.now.instance.set.set.r }
        requires answer { length answer.old ≡ signature_length F.Field.coding.bits self.now.instance.set.set }
        ensures { answer.new ≡ self.now.randomizer.now ++ behind_r F.Field.coding (S.Suite.meaning self.now.instance.suite.now) self.now.instance.set.set self.now.instance.map.cs.now self.now.s.now self.now.k.now self.now.d.now }
    {
        let set = self.instance.set;
        let layout = Layout {
            set,
            encoding: F::encoding(),
        };
        let size = layout.answers_len();
        self.write_first(base, alphas, desk, answer);
        // An array of which the set takes a part: no call takes heap.
        let mut drawn = [0u8; ROUNDS];
        let bits = &mut drawn[0..set.set.r];
        let answers = &answer[VECTORS..VECTORS + size];
        challenge_bits(self.instance.suite, self.d, base, h1, answers, bits);
        self.write_second(list, bits, desk, answer);
    }
}
