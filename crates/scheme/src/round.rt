// The vectors of a round.
ghost use Rattle.std.specs.Prelude.{◌≡◌};
ghost use Rattle.field.specs.Codes.{Vector};

use crate::instance::Instance;
use field::Field;
use suite::Suite;

// Three vectors over an instance: r and t of as many entries as there are variables, and e of as many as there are equations.
#[derive(Drop)]
pub struct Round<'a, F: Field, S: Suite> {
    pub instance: &'a Instance<'a, F, S>,
    pub r: &'a [u8],
    pub t: &'a [u8],
    pub e: &'a [u8],
    pub ghost of_r: { Vector F.Field.coding.q instance.now.set.set.n r.now },
    pub ghost of_t: { Vector F.Field.coding.q instance.now.set.set.n t.now },
    pub ghost of_e: { Vector F.Field.coding.q instance.now.set.set.m e.now },
}

impl<'a, F: Field, S: Suite> Round<'a, F, S> {
    pub fn new(
        instance: &'a Instance<'a, F, S>,
        r: &'a [u8],
        t: &'a [u8],
        e: &'a [u8],
    ) -> Round<'a, F, S>
        requires r { Vector F.Field.coding.q instance.now.set.set.n r.now }
        requires t { Vector F.Field.coding.q instance.now.set.set.n t.now }
        requires e { Vector F.Field.coding.q instance.now.set.set.m e.now }
        ensures instance { result.instance.now ≡ instance.now }
        ensures r { result.r.now ≡ r.now }
        ensures t { result.t.now ≡ t.now }
        ensures e { result.e.now ≡ e.now }
    {
        Round { instance, r, t, e }
    }
}
