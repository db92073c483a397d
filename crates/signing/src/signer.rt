// Who signs a message, and the walk over the rounds.
ghost use Rattle.std.specs.Prelude.{◌≡◌, ℕ, List, ◌*◌, Ok, length};
ghost use Rattle.field.specs.Codes.{Vector};
ghost use Rattle.scheme.specs.Rounds.{rounds};
ghost use Rattle.scheme.specs.Signing.{pool_size, pools_of, pool as pool_of};
ghost use Rattle.signing.specs.Walk.{Takes, Leaves};

use field::Field;
use params::Set;
use refusal::Refusal;
use scheme::Instance;
use suite::Suite;

// The bytes that drawing a round reads, and those that its vectors are worked on in.
pub const POOL: usize = 280;

pub const WORK: usize = 512;

// Secret memory for one round at a time.
#[derive(Drop)]
pub struct Desk<'a> {
    pub pool: &'a mut [u8; POOL],
    pub work: &'a mut [u8; WORK],
}

// A secret vector and its seed K, and the digests R and D of a message.
#[derive(Drop)]
pub struct Signer<'a, F: Field, S: Suite> {
    pub instance: Instance<'a, F, S>,
    pub s: &'a [u8],
    pub k: &'a [u8; 32],
    pub randomizer: &'a [u8; 32],
    pub d: &'a [u8; 32],
    // as its type says, for clauses, which take no length from the type of a field
    pub ghost long: { length randomizer.now ≡ 32 },
    pub ghost secret: { Vector F.Field.coding.q instance.set.set.n s.now },
}

impl<F: Field, S: Suite> Signer<'_, F, S> {
    // Draws each round, and has `give` write the round's part of `out`, `size` bytes, from its elements. Every step of a signature that
    // needs the rounds' vectors draws them again, so that no more than one round's stand in memory. Refused where a round draws too few.
    pub fn each_round<T: Fn(usize, &[u8], &mut [u8; WORK], &mut [u8])>(
        &self,
        desk: &mut Desk,
        size: usize,
        out: &mut [u8],
        give: T,
    ) -> Result<(), Refusal>
        requires out { length out.old ≡ self.now.instance.set.set.r * size }
        requires takes { Takes (T.pre give) F.Field.coding.q (pool_size self.now.instance.set.set) self.now.instance.set.set.r size }
        ensures answer { result ≡ pools_of F.Field.coding (S.Suite.meaning self.now.instance.suite.now) self.now.instance.set.set self.now.k.now self.now.d.now }
        ensures bytes { (x : ℕ → List ℕ) → Leaves (T.post give) (pool_of F.Field.coding (S.Suite.meaning self.now.instance.suite.now) self.now.instance.set.set self.now.k.now self.now.d.now) self.now.instance.set.set.r size x → result ≡ Ok tt → out.new ≡ rounds self.now.instance.set.set.r x }
    {
        let Set { n, m, r } = self.instance.set.set;
        let pool = &mut *desk.pool;
        let work = &mut *desk.work;
        // By index: the number of a round goes into its seed, and after `chunks_exact_mut` a proof knows no more of `out` than its length.
        for i in 0..r {
            self.draw(i, pool)?;
            let at = i * size;
            give(i, &pool[0..2 * n + m], work, &mut out[at..at + size]);
        }
        Ok(())
    }
}
