// The map F and its polar form G, from the places of the coefficients.
use crate::numbers::{at, minus, plus, term};
use crate::{Params, Signer};
use std::alloc::AllocError;

// n(n+1)/2, the quadratic coefficients of an equation.
fn pairs(n: usize) -> usize {
    n.wrapping_mul(n.wrapping_add(1)) / 2
}

// All coefficients of an equation.
fn of_equation(n: usize) -> usize {
    pairs(n).wrapping_add(n)
}

// Where a(i,j) stands in its equation: i·n − i(i−1)/2 + (j − i).
fn place(n: usize, i: usize, j: usize) -> usize {
    let before = i.wrapping_mul(i.wrapping_sub(1)) / 2;
    i.wrapping_mul(n)
        .wrapping_sub(before)
        .wrapping_add(j)
        .wrapping_sub(i)
}

// One entry of F(x), of the equation whose coefficients begin at `from`. Each coefficient is read at its place, worked out by the formula, and not as the next one, as in the kit.
fn entry(map: &[u8], from: usize, x: &[u8]) -> u8 {
    let n = x.len();
    let mut sum = 0u8;
    for (i, &left) in x.iter().enumerate() {
        for (j, &right) in x.iter().enumerate().skip(i) {
            let a = at(map, from.wrapping_add(place(n, i, j)));
            sum = term(sum, a, left, right);
        }
    }
    for (i, &left) in x.iter().enumerate() {
        let b = at(map, from.wrapping_add(pairs(n)).wrapping_add(i));
        sum = term(sum, b, left, 1);
    }
    sum
}

impl Params {
    pub(crate) fn coefficients(self) -> usize {
        self.m.wrapping_mul(of_equation(self.n))
    }
}

impl<S> Signer<'_, S> {
    // F(x)
    pub(crate) fn value(&self, map: &[u8], x: &[u8]) -> Result<Vec<u8>, AllocError> {
        (0..self.p.m)
            .map(|k| entry(map, k.wrapping_mul(of_equation(x.len())), x))
            .collect(self.heap)
    }

    // G(x, y) = F(x + y) − F(x) − F(y)
    pub(crate) fn polar(&self, map: &[u8], x: &[u8], y: &[u8]) -> Result<Vec<u8>, AllocError> {
        let both = plus(self.heap, x, y)?;
        let whole = self.value(map, both.as_slice())?;
        let left = self.value(map, x)?;
        let right = self.value(map, y)?;
        let rest = minus(self.heap, whole.as_slice(), left.as_slice())?;
        minus(self.heap, rest.as_slice(), right.as_slice())
    }
}
