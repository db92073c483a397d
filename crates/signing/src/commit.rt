// The commitments of a round, and those of all rounds.
ghost use Rattle.std.specs.Prelude.{◌≡◌, ◌*◌, ◌++◌, length, Ok};
ghost use Rattle.suite.specs.Drawn.{Elements};
ghost use Rattle.scheme.specs.Signing.{c0, c1, pool_size, pools_of, list as list_of};

use crate::signer::{Desk, Signer, WORK};
use field::Field;
use params::Set;
use refusal::Refusal;
use scheme::commit::{commit_0, commit_1};
use suite::Suite;
use vectors::{difference, sum};

impl<F: Field, S: Suite> Signer<'_, F, S> {
    // c0 ‖ c1 of a round: the digest of r0, t0 and e0, and that of r1 = s - r0 and of G(t0, r1) + e0.
    #[tactic(auto, unfolding(scheme::specs::Signing::c0, scheme::specs::Signing::c1))]
    fn commit_round(&self, drawn: &[u8], work: &mut [u8; WORK], out: &mut [u8])
        requires drawn { Elements F.Field.coding.q (pool_size self.now.instance.set.set) drawn.now }
        requires out { length out.old ≡ 64 }
        ensures { out.new ≡ c0 F.Field.coding (S.Suite.meaning self.now.instance.suite.now) self.now.instance.set.set drawn.now ++ c1 F.Field.coding (S.Suite.meaning self.now.instance.suite.now) self.now.instance.set.set self.now.instance.map.cs.now self.now.s.now drawn.now }
    {
        let Set { n, m, r: _ } = self.instance.set.set;
        let suite = self.instance.suite;
        let round = self.cut(drawn);
        let (r1, rest) = work.split_at_mut(64);
        let (polar, rest) = rest.split_at_mut(64);
        let (g, rest) = rest.split_at_mut(64);
        let r1 = &mut r1[0..n];
        let polar = &mut polar[0..m];
        let g = &mut g[0..m];
        difference::<F>(self.s, round.r, r1);
        self.instance.map.polar(round.t, r1, polar);
        sum::<F>(polar, round.e, g);
        let (first, second) = out.split_at_mut(32);
        first.copy_from_slice(&commit_0::<F, S>(suite, round.r, round.t, round.e, rest));
        second.copy_from_slice(&commit_1::<F, S>(suite, r1, g, rest));
    }

    // The commitment list, c0 ‖ c1 of every round.
    pub fn commit(&self, desk: &mut Desk, list: &mut [u8]) -> Result<(), Refusal>
        requires list { length list.old ≡ self.now.instance.set.set.r * 64 }
        ensures answer { result ≡ pools_of F.Field.coding (S.Suite.meaning self.now.instance.suite.now) self.now.instance.set.set self.now.k.now self.now.d.now }
        ensures list { result ≡ Ok tt → list.new ≡ list_of F.Field.coding (S.Suite.meaning self.now.instance.suite.now) self.now.instance.set.set self.now.instance.map.cs.now self.now.s.now self.now.k.now self.now.d.now }
    {
        self.each_round(desk, 64, list, |_, drawn, work, part| {
            self.commit_round(drawn, work, part)
        })
    }
}
