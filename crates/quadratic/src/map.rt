// A quadratic map over a field.
ghost use Rattle.std.specs.Prelude.{◌≡◌, ◌*◌, ◌≤◌, length};
ghost use Rattle.field.specs.Codes.{Codes};
ghost use Rattle.algebra.specs.Quad.{size as size_of};

use field::Field;
use std::marker::PhantomData;

// m equations in n variables, by their coefficients. These stand equation by equation, and within one: a(i,j) for i from 0 and j from
// i upward, and then b(i).
#[derive(Drop)]
pub struct Map<'a, F: Field> {
    pub n: usize,
    pub m: usize,
    pub cs: &'a [u8],
    of: PhantomData<F>,
    pub ghost short: { n ≤ 64 },
    pub ghost few: { m ≤ 64 },
    pub ghost len: { length cs.now ≡ m * size_of n },
    pub ghost coefficients: { Codes F.Field.coding.q cs.now },
}

impl<'a, F: Field> Map<'a, F> {
    pub fn new(n: usize, m: usize, cs: &'a [u8]) -> Map<'a, F>
        requires short { n ≤ 64 }
        requires few { m ≤ 64 }
        requires len { length cs.now ≡ m * size_of n }
        requires coefficients { Codes F.Field.coding.q cs.now }
        ensures n { result.n ≡ n }
        ensures m { result.m ≡ m }
        ensures cs { result.cs.now ≡ cs.now }
    {
        Map {
            n,
            m,
            cs,
            of: PhantomData,
        }
    }
}
