// What a round draws: r0, t0 and e0, from a seed of its own.
ghost use Rattle.std.specs.Prelude.{◌≡◌, ◌<◌, ◌++◌, take, Ok};
ghost use Rattle.refusal.specs.Outcome.{told};
ghost use Rattle.suite.specs.Drawn.{drawn, Elements};
ghost use Rattle.scheme.specs.Rounds.{two};
ghost use Rattle.scheme.specs.Signing.{round_seed, pool_size, pool as pool_of, r0, t0, e0};

use crate::signer::{POOL, Signer};
use field::Field;
use params::Set;
use refusal::Refusal;
use scheme::ask::draw_into;
use scheme::{Round, labels};
use suite::Suite;
use wiping::all_zero;

// D and the number of a round in two bytes.
fn numbered(d: &[u8; 32], round: usize) -> [u8; 34]
    requires { round < 65536 }
    ensures { result ≡ d.now ++ two round }
{
    let mut out = [0u8; 34];
    out[0..32].copy_from_slice(d);
    out[32..].copy_from_slice(&(round as u16).to_le_bytes());
    out
}

impl<F: Field, S: Suite> Signer<'_, F, S> {
    // Draws r0, t0 and e0 of a round into the front of `pool`.
    #[tactic(auto, unfolding(scheme::specs::Signing::pool))]
    pub fn draw(&self, round: usize, pool: &mut [u8; POOL]) -> Result<(), Refusal>
        requires round { round < 65536 }
        ensures answer { result ≡ told (drawn F.Field.coding (S.Suite.meaning self.now.instance.suite.now) 10 (round_seed (S.Suite.meaning self.now.instance.suite.now) self.now.k.now self.now.d.now round) (pool_size self.now.instance.set.set)) }
        ensures front { result ≡ Ok tt → take (pool_size self.now.instance.set.set) pool.new ≡ pool_of F.Field.coding (S.Suite.meaning self.now.instance.suite.now) self.now.instance.set.set self.now.k.now self.now.d.now round }
        ensures elements { result ≡ Ok tt → Elements F.Field.coding.q (pool_size self.now.instance.set.set) (take (pool_size self.now.instance.set.set) pool.new) }
    {
        let Set { n, m, r: _ } = self.instance.set.set;
        let suite = self.instance.suite;
        let k = self.k;
        let mut seed = suite.digest_within(labels::ROUND_SEED, k, &numbered(self.d, round));
        let answer = draw_into::<F, S>(suite, labels::ROUND, &seed, pool, 2 * n + m);
        seed.fill(0);
        // never taken; it makes the zeros something that is read
        if !all_zero(&seed) {
            pool.fill(0);
        }
        answer
    }

    // r0, t0 and e0, as they lie in what was drawn.
    pub fn cut<'a>(&'a self, drawn: &'a [u8]) -> Round<'a, F, S>
        requires { Elements F.Field.coding.q (pool_size self.now.instance.set.set) drawn.now }
        ensures instance { result.instance.now ≡ self.now.instance }
        ensures r { result.r.now ≡ r0 self.now.instance.set.set drawn.now }
        ensures t { result.t.now ≡ t0 self.now.instance.set.set drawn.now }
        ensures e { result.e.now ≡ e0 self.now.instance.set.set drawn.now }
    {
        let (r, rest) = drawn.split_at(self.instance.set.set.n);
        let (t, e) = rest.split_at(self.instance.set.set.n);
        Round::new(&self.instance, r, t, e)
    }
}
