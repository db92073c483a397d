// The map and its polar form at vectors.
ghost use Rattle.std.specs.Prelude.{◌≡◌, length, replicate};
ghost use Rattle.field.specs.Codes.{Codes, Vector};
ghost use Rattle.algebra.specs.Quad.{F as map_of, G as polar_of};

use crate::map::Map;
use crate::terms::{add_up, fill_crosses, fill_monomials, pairs};
use field::Field;
use wiping::{Wiped, all_zero};

// How many monomials 64 variables have.
pub const MONOMIALS: usize = 2144;

impl<F: Field> Map<'_, F> {
    // F(x).
    pub fn evaluate(&self, x: &[u8], out: &mut [u8])
        requires entries { Vector F.Field.coding.q self.now.n x.now }
        requires places { length out.old ≡ self.now.m }
        ensures value { out.new ≡ map_of F.Field.coding.ops self.now.m self.now.n self.now.cs.now x.now }
        ensures codes { Codes F.Field.coding.q out.new }
    {
        let mut terms = [0u16; MONOMIALS];
        self.evaluate_in(x, &mut terms, out);
        // never taken; it makes the zeros something that is read
        if !all_zero(&terms) {
            out.fill(0);
        }
    }

    // F(x), with the terms in memory that the caller lends, and that ends as zeros.
    pub fn evaluate_in(&self, x: &[u8], terms: &mut [u16; MONOMIALS], out: &mut [u8])
        requires entries { Vector F.Field.coding.q self.now.n x.now }
        requires places { length out.old ≡ self.now.m }
        ensures value { out.new ≡ map_of F.Field.coding.ops self.now.m self.now.n self.now.cs.now x.now }
        ensures codes { Codes F.Field.coding.q out.new }
        ensures zeros { terms.new ≡ replicate (length terms.old) 0 }
    {
        let guard = Wiped { items: terms };
        let size = pairs(self.n) + self.n;
        let monomials = &mut guard.items[..size];
        fill_monomials::<F>(x, monomials);
        add_up::<F>(self.cs, size, monomials, out);
    }

    // G(x, y) = F(x + y) - F(x) - F(y), in one pass over the coefficients: the linear parts cancel.
    pub fn polar(&self, x: &[u8], y: &[u8], out: &mut [u8])
        requires left { Vector F.Field.coding.q self.now.n x.now }
        requires right { Vector F.Field.coding.q self.now.n y.now }
        requires places { length out.old ≡ self.now.m }
        ensures value { out.new ≡ polar_of F.Field.coding.ops self.now.m self.now.n self.now.cs.now x.now y.now }
        ensures codes { Codes F.Field.coding.q out.new }
    {
        let mut terms = [0u16; MONOMIALS];
        self.polar_in(x, y, &mut terms, out);
        if !all_zero(&terms) {
            out.fill(0);
        }
    }

    // G(x, y), with the terms in memory that the caller lends, and that ends as zeros.
    pub fn polar_in(&self, x: &[u8], y: &[u8], terms: &mut [u16; MONOMIALS], out: &mut [u8])
        requires left { Vector F.Field.coding.q self.now.n x.now }
        requires right { Vector F.Field.coding.q self.now.n y.now }
        requires places { length out.old ≡ self.now.m }
        ensures value { out.new ≡ polar_of F.Field.coding.ops self.now.m self.now.n self.now.cs.now x.now y.now }
        ensures codes { Codes F.Field.coding.q out.new }
        ensures zeros { terms.new ≡ replicate (length terms.old) 0 }
    {
        let guard = Wiped { items: terms };
        let count = pairs(self.n);
        let crosses = &mut guard.items[..count];
        fill_crosses::<F>(x, y, crosses);
        add_up::<F>(self.cs, count + self.n, crosses, out);
    }
}
