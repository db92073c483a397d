// Integers modulo 31, and vectors of them.
use std::alloc::{AllocError, Global};

// Entry i, and 0 past the end.
pub fn at(v: &[u8], i: usize) -> u8 {
    v.get(i).copied().unwrap_or(0)
}

// `count` entries from `from` on, and none where there are fewer.
pub fn part(v: &[u8], from: usize, count: usize) -> &[u8] {
    v.get(from..from.saturating_add(count)).unwrap_or(&[])
}

fn code(x: u64) -> u8 {
    (x % 31) as u8
}

// sum + c·x·y
pub fn term(sum: u8, c: u8, x: u8, y: u8) -> u8 {
    code(sum as u64 + (c as u64 * x as u64) % 31 * (y as u64))
}

pub fn plus(heap: Global, a: &[u8], b: &[u8]) -> Result<Vec<u8>, AllocError> {
    a.iter()
        .zip(b)
        .map(|(&x, &y)| code(x as u64 + y as u64))
        .collect(heap)
}

pub fn minus(heap: Global, a: &[u8], b: &[u8]) -> Result<Vec<u8>, AllocError> {
    a.iter()
        .zip(b)
        .map(|(&x, &y)| code(x as u64 + (31 - y as u64 % 31)))
        .collect(heap)
}

pub fn times(heap: Global, alpha: u8, a: &[u8]) -> Result<Vec<u8>, AllocError> {
    a.iter()
        .map(|&x| code(alpha as u64 * x as u64))
        .collect(heap)
}
