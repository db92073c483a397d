// What the response of a round opens: one of its two commitments, worked out anew.
ghost use Rattle.std.specs.Prelude.{◌≡◌, ◌<◌, length};
ghost use Rattle.field.specs.Codes.{Codes, Vector};
ghost use Rattle.algebra.specs.Quad.{F as map_of, G as polar_of, vsub, scale};
ghost use Rattle.scheme.specs.Verifying.{opening0, opening1};

use field::Field;
use params::Set;
use scheme::Round;
use scheme::commit::{PACKED, commit_0, commit_1};
use suite::Suite;
use vectors::{difference, scaled_difference};

// A response r and the answers t and e to the challenge α, under a key with the vector v.
#[derive(Drop)]
pub struct Opening<'a, F: Field, S: Suite> {
    pub round: Round<'a, F, S>,
    pub v: &'a [u8],
    pub alpha: u8,
    pub ghost of_v: { Vector F.Field.coding.q round.instance.now.set.set.m v.now },
    pub ghost of_alpha: { alpha < F.Field.coding.q },
}

impl<F: Field, S: Suite> Opening<'_, F, S> {
    // Commitment 0: the digest of r, α·r - t and α·F(r) - e.
    #[tactic(auto, unfolding(scheme::specs::Verifying::opening0))]
    pub fn commitment_0(&self) -> [u8; 32]
        ensures { result ≡ (S.Suite.meaning self.now.round.instance.now.suite.now).d 0 (opening0 F.Field.coding self.now.round.instance.now.set.set self.now.round.instance.now.map.cs.now self.now.v.now self.now.alpha self.now.round.t.now self.now.round.e.now self.now.round.r.now) }
    {
        let round = &self.round;
        let instance = round.instance;
        let Set { n, m, r: _ } = instance.set.set;
        // Arrays of which the set takes a part: no call takes heap.
        let mut t0 = [0u8; 64];
        let mut value = [0u8; 64];
        let mut e0 = [0u8; 64];
        let mut work = [0u8; PACKED];
        let t0 = &mut t0[0..n];
        let value = &mut value[0..m];
        let e0 = &mut e0[0..m];
        scaled_difference::<F>(self.alpha, round.r, round.t, t0);
        instance.map.evaluate(round.r, value);
        scaled_difference::<F>(self.alpha, value, round.e, e0);
        commit_0::<F, S>(instance.suite, round.r, t0, e0, &mut work)
    }

    // α(v - F(r)) - G(t, r) - e.
    fn value(&self, out: &mut [u8])
        requires { length out.old ≡ self.now.round.instance.now.set.set.m }
        ensures value { out.new ≡ vsub F.Field.coding.ops self.now.round.instance.now.set.set.m (vsub F.Field.coding.ops self.now.round.instance.now.set.set.m (scale F.Field.coding.ops self.now.round.instance.now.set.set.m self.now.alpha (vsub F.Field.coding.ops self.now.round.instance.now.set.set.m self.now.v.now (map_of F.Field.coding.ops self.now.round.instance.now.set.set.m self.now.round.instance.now.set.set.n self.now.round.instance.now.map.cs.now self.now.round.r.now))) (polar_of F.Field.coding.ops self.now.round.instance.now.set.set.m self.now.round.instance.now.set.set.n self.now.round.instance.now.map.cs.now self.now.round.t.now self.now.round.r.now)) self.now.round.e.now }
        ensures codes { Codes F.Field.coding.q out.new }
    {
        let round = &self.round;
        let map = &round.instance.map;
        let m = round.instance.set.set.m;
        // Arrays of which the set takes a part: no call takes heap.
        let mut value = [0u8; 64];
        let mut left = [0u8; 64];
        let mut polar = [0u8; 64];
        let mut scaled = [0u8; 64];
        let value = &mut value[0..m];
        let left = &mut left[0..m];
        let polar = &mut polar[0..m];
        let scaled = &mut scaled[0..m];
        map.evaluate(round.r, value);
        difference::<F>(self.v, value, left);
        map.polar(round.t, round.r, polar);
        scaled_difference::<F>(self.alpha, left, polar, scaled);
        difference::<F>(scaled, round.e, out);
    }

    // Commitment 1: the digest of r and α(v - F(r)) - G(t, r) - e.
    #[tactic(auto, unfolding(scheme::specs::Verifying::opening1))]
    pub fn commitment_1(&self) -> [u8; 32]
        ensures { result ≡ (S.Suite.meaning self.now.round.instance.now.suite.now).d 1 (opening1 F.Field.coding self.now.round.instance.now.set.set self.now.round.instance.now.map.cs.now self.now.v.now self.now.alpha self.now.round.t.now self.now.round.e.now self.now.round.r.now) }
    {
        let round = &self.round;
        let instance = round.instance;
        // Arrays of which the set takes a part: no call takes heap.
        let mut g = [0u8; 64];
        let mut work = [0u8; PACKED];
        let g = &mut g[0..instance.set.set.m];
        self.value(g);
        commit_1::<F, S>(instance.suite, round.r, g, &mut work)
    }
}
