// The rounds of a signature: from the map and the secret vector to its bytes.
ghost use Rattle.std.specs.Prelude.{◌≡◌, ◌*◌, length, replicate};
ghost use Rattle.refusal.specs.Outcome.{told, written};
ghost use Rattle.params.specs.Sizes.{signature_length};
ghost use Rattle.signing.specs.Steps.{rounds_of};

use crate::signer::{Desk, Signer};
use field::Field;
use refusal::Refusal;
use scheme::ask::draw_into;
use scheme::labels;
use scheme::sizes::CHALLENGES;
use suite::Suite;

impl<F: Field, S: Suite> Signer<'_, F, S> {
    // Writes the signature; refused where a round or the challenges draw too few elements.
    pub fn sign(&self, desk: &mut Desk, list: &mut [u8], answer: &mut [u8]) -> Result<(), Refusal>
        requires list { length list.old ≡ self.now.instance.set.set.r * 64 }
        requires answer { length answer.old ≡ signature_length F.Field.coding.bits self.now.instance.set.set }
        requires zeros { answer.old ≡ replicate (length answer.old) 0 }
        ensures answer { result ≡ told (rounds_of F.Field.coding (S.Suite.meaning self.now.instance.suite.now) self.now.instance.set.set self.now.instance.map.cs.now self.now.s.now self.now.k.now self.now.randomizer.now self.now.d.now) }
        ensures bytes { answer.new ≡ written (length answer.old) (rounds_of F.Field.coding (S.Suite.meaning self.now.instance.suite.now) self.now.instance.set.set self.now.instance.map.cs.now self.now.s.now self.now.k.now self.now.randomizer.now self.now.d.now) }
    {
        let r = self.instance.set.set.r;
        let suite = self.instance.suite;
        let d = self.d;
        self.commit(desk, list)?;
        let base = suite.digest_within(labels::LIST, list, &[]);
        let h1 = suite.digest_within(labels::FIRST_HASH, d, &base);
        // An array of which the set takes a part: no call takes heap.
        let mut drawn = [0u8; CHALLENGES];
        draw_into::<F, S>(suite, labels::ALPHAS, &h1, &mut drawn, r)?;
        self.finish(list, &base, &h1, &drawn[0..r], desk, answer);
        Ok(())
    }
}
