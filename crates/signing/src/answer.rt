// The first answers: t1 and e1 of every round, to its challenge α.
ghost use Rattle.std.specs.Prelude.{◌≡◌, ◌+◌, ◌*◌, ◌<◌, length, Ok, slice_index};
ghost use Rattle.packing.specs.Packed.{width};
ghost use Rattle.suite.specs.Drawn.{Elements};
ghost use Rattle.scheme.specs.Signing.{pool_size, pools_of, first_answer, answers};

use crate::signer::{Desk, Signer, WORK};
use field::Field;
use params::Set;
use refusal::Refusal;
use suite::Suite;
use vectors::packed::store_both;
use vectors::scaled_difference;

impl<F: Field, S: Suite> Signer<'_, F, S> {
    // t1 = α·r0 - t0 and e1 = α·F(r0) - e0 of a round, packed.
    #[tactic(auto, unfolding(scheme::specs::Signing::first_answer))]
    fn answer_round(&self, alpha: u8, drawn: &[u8], work: &mut [u8; WORK], out: &mut [u8])
        requires alpha { alpha < F.Field.coding.q }
        requires drawn { Elements F.Field.coding.q (pool_size self.now.instance.set.set) drawn.now }
        requires out { length out.old ≡ width F.Field.coding.bits self.now.instance.set.set.n + width F.Field.coding.bits self.now.instance.set.set.m }
        ensures { out.new ≡ first_answer F.Field.coding self.now.instance.set.set self.now.instance.map.cs.now drawn.now alpha }
    {
        let Set { n, m, r: _ } = self.instance.set.set;
        let round = self.cut(drawn);
        let (t1, rest) = work.split_at_mut(64);
        let (value, e1) = rest.split_at_mut(64);
        let t1 = &mut t1[0..n];
        let value = &mut value[0..m];
        let e1 = &mut e1[0..m];
        scaled_difference::<F>(alpha, round.r, round.t, t1);
        self.instance.map.evaluate(round.r, value);
        scaled_difference::<F>(alpha, value, round.e, e1);
        store_both::<F>(t1, e1, out);
    }

    // t1 ‖ e1 of every round, packed.
    pub fn answer(&self, alphas: &[u8], desk: &mut Desk, out: &mut [u8]) -> Result<(), Refusal>
        requires alphas { Elements F.Field.coding.q self.now.instance.set.set.r alphas.now }
        requires out { length out.old ≡ self.now.instance.set.set.r * (width F.Field.coding.bits self.now.instance.set.set.n + width F.Field.coding.bits self.now.instance.set.set.m) }
        ensures answer { result ≡ pools_of F.Field.coding (S.Suite.meaning self.now.instance.suite.now) self.now.instance.set.set self.now.k.now self.now.d.now }
        ensures bytes { result ≡ Ok tt → out.new ≡ answers F.Field.coding (S.Suite.meaning self.now.instance.suite.now) self.now.instance.set.set self.now.k.now self.now.d.now self.now.instance.map.cs.now (λ i. slice_index alphas.now i) }
    {
        let encoding = F::encoding();
        let Set { n, m, r: _ } = self.instance.set.set;
        let size = encoding.width(n) + encoding.width(m);
        self.each_round(desk, size, out, |i, drawn, work, part| {
            self.answer_round(alphas[i], drawn, work, part)
        })
    }
}
