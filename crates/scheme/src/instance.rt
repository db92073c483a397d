// What signing and verification work over.
ghost use Rattle.std.specs.Prelude.{◌≡◌, ◌*◌};
ghost use Rattle.field.specs.Codes.{Vector};
ghost use Rattle.algebra.specs.Quad.{size};

use field::Field;
use params::{GoodSet, Set};
use quadratic::Map;
use suite::Suite;

// A set, a suite, and a map in as many variables and equations as the set says.
#[derive(Drop)]
pub struct Instance<'a, F: Field, S: Suite> {
    pub set: GoodSet,
    pub suite: &'a S,
    pub map: Map<'a, F>,
    pub ghost n: { map.n ≡ set.set.n },
    pub ghost m: { map.m ≡ set.set.m },
}

impl<'a, F: Field, S: Suite> Instance<'a, F, S> {
    // The map is the one with the coefficients `cs`.
    pub fn new(set: GoodSet, suite: &'a S, cs: &'a [u8]) -> Instance<'a, F, S>
        requires { Vector F.Field.coding.q (set.set.m * size set.set.n) cs.now }
        ensures set { result.set ≡ set }
        ensures suite { result.suite.now ≡ suite.now }
        ensures cs { result.map.cs.now ≡ cs.now }
    {
        let Set { n, m, r: _ } = set.set;
        let map = Map::new(n, m, cs);
        Instance { set, suite, map }
    }
}
