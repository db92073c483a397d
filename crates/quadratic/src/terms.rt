// The terms that the equations are sums of, each worked out once for all equations.
ghost use Rattle.std.specs.Prelude.{◌≡◌, ◌*◌, ◌<◌, ◌≤◌, map, length};
ghost use Rattle.field.specs.Codes.{Codes};
ghost use Rattle.field.specs.Terms.{monomials, crosses};
ghost use Rattle.algebra.specs.Quad.{row as row_of, size as size_of};
ghost use Rattle.quadratic.specs.Sums.{sums as sums_of};

use crate::triangle::{fill_row, fill_rows};
use field::Field;

// How many pairs n variables have, of two or of one twice.
pub fn pairs(n: usize) -> usize
    requires { n ≤ 64 }
    ensures rows { result ≡ row_of n n }
    ensures few { result ≤ 2080 }
{
    n * (n + 1) / 2
}

// Writes x(i)·x(j), i from 0 and j from i upward, and then x(i).
pub fn fill_monomials<F: Field>(x: &[u8], terms: &mut [u16])
    requires short { length x.now ≤ 64 }
    requires room { length terms.old ≡ size_of (length x.now) }
    requires codes { Codes F.Field.coding.q x.now }
    ensures value { map F.Field.coding.stands terms.new ≡ monomials F.Field.coding.ops.mul x.now }
    ensures small { Codes F.Field.coding.limit terms.new }
{
    let count = pairs(x.len());
    let (products, entries) = terms.split_at_mut(count);
    fill_rows(
        0,
        x.len(),
        products,
        &|i: usize, j: usize| -> u16
            requires i { i < length x.now }
            requires j { j < length x.now }
            requires codes { Codes F.Field.coding.q x.now }
        { F::product(x[i], x[j]) },
    );
    fill_row(
        0,
        entries,
        &|_i: usize, j: usize| -> u16
            requires j { j < length x.now }
            requires codes { Codes F.Field.coding.q x.now }
        { F::term(x[j]) },
    );
}

// Writes x(i)·y(j) + y(i)·x(j), i from 0 and j from i upward.
pub fn fill_crosses<F: Field>(x: &[u8], y: &[u8], terms: &mut [u16])
    requires short { length x.now ≤ 64 }
    requires same { length y.now ≡ length x.now }
    requires room { length terms.old ≡ row_of (length x.now) (length x.now) }
    requires left { Codes F.Field.coding.q x.now }
    requires right { Codes F.Field.coding.q y.now }
    ensures value { map F.Field.coding.stands terms.new ≡ crosses F.Field.coding.ops x.now y.now }
    ensures small { Codes F.Field.coding.limit terms.new }
{
    fill_rows(
        0,
        x.len(),
        terms,
        &|i: usize, j: usize| -> u16
            requires i { i < length x.now }
            requires j { j < length x.now }
            requires same { length y.now ≡ length x.now }
            requires left { Codes F.Field.coding.q x.now }
            requires right { Codes F.Field.coding.q y.now }
        { F::cross(x[i], y[i], x[j], y[j]) },
    );
}

// Adds up each equation: its coefficients, which begin `step` places behind those of the one before, times the terms.
// By index: `chunks_exact` asks for a step above 0, and a map in no variables has a step of 0; so k finds the coefficients, and the
// place in `out` with them.
pub fn add_up<F: Field>(cs: &[u8], step: usize, terms: &[u16], out: &mut [u8])
    requires few { length out.old ≤ 64 }
    requires short { step ≤ 2144 }
    requires within { length terms.now ≤ step }
    requires len { length cs.now ≡ length out.old * step }
    requires codes { Codes F.Field.coding.q cs.now }
    requires small { Codes F.Field.coding.limit terms.now }
    ensures value { out.new ≡ sums_of F.Field.coding.ops (length out.old) cs.now step (map F.Field.coding.stands terms.now) }
    ensures codes { Codes F.Field.coding.q out.new }
{
    for k in 0..out.len() {
        let at = k * step;
        out[k] = F::total(&cs[at..at + terms.len()], terms);
    }
}
