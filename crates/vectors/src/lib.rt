// Vectors over any field: sums and differences entry by entry, and the packed form.
#![tactic(auto)]

ghost use Rattle.std.specs.Prelude.{◌≡◌, ℕ, ◌<◌, length, slice_index};
ghost use Rattle.field.specs.Codes.{Codes};
ghost use Rattle.algebra.specs.Quad.{vadd, vsub, scale};

pub mod packed;

use field::Field;

// x + y.
pub fn sum<F: Field>(x: &[u8], y: &[u8], out: &mut [u8])
    requires x { length x.now ≡ length out.old }
    requires y { length y.now ≡ length out.old }
    requires left { Codes F.Field.coding.q x.now }
    requires right { Codes F.Field.coding.q y.now }
    ensures value { out.new ≡ vadd F.Field.coding.ops (length out.old) x.now y.now }
    ensures codes { Codes F.Field.coding.q out.new }
{
    each(x, y, out, |a, b| F::add(a, b));
}

// x - y.
pub fn difference<F: Field>(x: &[u8], y: &[u8], out: &mut [u8])
    requires x { length x.now ≡ length out.old }
    requires y { length y.now ≡ length out.old }
    requires left { Codes F.Field.coding.q x.now }
    requires right { Codes F.Field.coding.q y.now }
    ensures value { out.new ≡ vsub F.Field.coding.ops (length out.old) x.now y.now }
    ensures codes { Codes F.Field.coding.q out.new }
{
    each(x, y, out, |a, b| F::sub(a, b));
}

// a·x - y.
pub fn scaled_difference<F: Field>(a: u8, x: &[u8], y: &[u8], out: &mut [u8])
    requires a { a < F.Field.coding.q }
    requires x { length x.now ≡ length out.old }
    requires y { length y.now ≡ length out.old }
    requires left { Codes F.Field.coding.q x.now }
    requires right { Codes F.Field.coding.q y.now }
    ensures value { out.new ≡ vsub F.Field.coding.ops (length out.old) (scale F.Field.coding.ops (length out.old) a x.now) y.now }
    ensures codes { Codes F.Field.coding.q out.new }
{
    each(
        x,
        y,
        out,
        |u, v| -> u8
            requires u { u < F.Field.coding.q }
            requires v { v < F.Field.coding.q }
            requires a { a < F.Field.coding.q }
        { F::sub(F::mul(a, u), v) },
    );
}

// Writes what `entry` gives of the entries of x and y, place by place.
// By index: after a `zip` that lends out the places of `out`, a proof knows nothing of what stands in them.
fn each<T: Fn(u8, u8) -> u8>(x: &[u8], y: &[u8], out: &mut [u8], entry: T)
    requires x { length x.now ≡ length out.old }
    requires y { length y.now ≡ length out.old }
    requires callable { (k : ℕ) → k < length out.old → T.pre entry (slice_index x.now k) (slice_index y.now k) }
    ensures { (k : ℕ) → k < length out.old → T.post entry (slice_index x.now k) (slice_index y.now k) (slice_index out.new k) }
{
    for (k, place) in out.iter_mut().enumerate() {
        *place = entry(x[k], y[k]);
    }
}
