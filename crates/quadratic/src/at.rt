// The map and its polar form as functions of coefficients, for callers that have no `Map`.
ghost use Rattle.std.specs.Prelude.{◌≡◌, ◌*◌, ◌≤◌, length, replicate};
ghost use Rattle.field.specs.Codes.{Codes};
ghost use Rattle.algebra.specs.Quad.{size as size_of, F as map_of, G as polar_of};

use crate::map::Map;
use crate::values::MONOMIALS;
use field::Field;

// F(x): the map with the coefficients `cs`, in as many variables as `x` has entries and as many equations as `out` has places.
pub fn evaluate<F: Field>(cs: &[u8], x: &[u8], out: &mut [u8])
    requires short { length x.now ≤ 64 }
    requires few { length out.old ≤ 64 }
    requires len { length cs.now ≡ length out.old * size_of (length x.now) }
    requires coefficients { Codes F.Field.coding.q cs.now }
    requires entries { Codes F.Field.coding.q x.now }
    ensures value { out.new ≡ map_of F.Field.coding.ops (length out.old) (length x.now) cs.now x.now }
    ensures codes { Codes F.Field.coding.q out.new }
{
    Map::<F>::new(x.len(), out.len(), cs).evaluate(x, out);
}

// F(x) likewise, with the terms in memory that the caller lends, and that ends as zeros.
pub fn evaluate_in<F: Field>(cs: &[u8], x: &[u8], terms: &mut [u16], out: &mut [u8])
    requires short { length x.now ≤ 64 }
    requires few { length out.old ≤ 64 }
    requires room { length terms.old ≡ 2144 }
    requires len { length cs.now ≡ length out.old * size_of (length x.now) }
    requires coefficients { Codes F.Field.coding.q cs.now }
    requires entries { Codes F.Field.coding.q x.now }
    ensures value { out.new ≡ map_of F.Field.coding.ops (length out.old) (length x.now) cs.now x.now }
    ensures codes { Codes F.Field.coding.q out.new }
    ensures zeros { terms.new ≡ replicate (length terms.old) 0 }
{
    let map = Map::<F>::new(x.len(), out.len(), cs);
    map.evaluate_in(x, terms.as_mut_array::<MONOMIALS>().unwrap(), out);
}

// G(x, y) = F(x + y) - F(x) - F(y).
pub fn evaluate_polar<F: Field>(cs: &[u8], x: &[u8], y: &[u8], out: &mut [u8])
    requires short { length x.now ≤ 64 }
    requires same { length y.now ≡ length x.now }
    requires few { length out.old ≤ 64 }
    requires len { length cs.now ≡ length out.old * size_of (length x.now) }
    requires coefficients { Codes F.Field.coding.q cs.now }
    requires left { Codes F.Field.coding.q x.now }
    requires right { Codes F.Field.coding.q y.now }
    ensures value { out.new ≡ polar_of F.Field.coding.ops (length out.old) (length x.now) cs.now x.now y.now }
    ensures codes { Codes F.Field.coding.q out.new }
{
    Map::<F>::new(x.len(), out.len(), cs).polar(x, y, out);
}

// G(x, y) likewise, with the terms in memory that the caller lends, and that ends as zeros.
pub fn evaluate_polar_in<F: Field>(cs: &[u8], x: &[u8], y: &[u8], terms: &mut [u16], out: &mut [u8])
    requires short { length x.now ≤ 64 }
    requires same { length y.now ≡ length x.now }
    requires few { length out.old ≤ 64 }
    requires room { length terms.old ≡ 2144 }
    requires len { length cs.now ≡ length out.old * size_of (length x.now) }
    requires coefficients { Codes F.Field.coding.q cs.now }
    requires left { Codes F.Field.coding.q x.now }
    requires right { Codes F.Field.coding.q y.now }
    ensures value { out.new ≡ polar_of F.Field.coding.ops (length out.old) (length x.now) cs.now x.now y.now }
    ensures codes { Codes F.Field.coding.q out.new }
    ensures zeros { terms.new ≡ replicate (length terms.old) 0 }
{
    let map = Map::<F>::new(x.len(), out.len(), cs);
    map.polar_in(x, y, terms.as_mut_array::<MONOMIALS>().unwrap(), out);
}
