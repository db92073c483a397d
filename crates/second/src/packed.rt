// Packed vectors, bit by bit: element i fills the bits 5i to 5i+4 of a row of bytes, and the bits left over are the pad.
ghost use Rattle.std.specs.Prelude.{◌<◌, ◌≤◌};

use crate::numbers::at;
use std::alloc::{AllocError, Global};

// The bytes of k packed elements.
pub fn width(k: usize) -> usize {
    k.saturating_mul(5).saturating_add(7) / 8
}

// Bit `b` of a row whose entries have N bits each, the lowest first.
fn bit<const N: usize>(row: &[u8], b: usize) -> u8
    requires some { 0 < N }
    requires byte { N ≤ 8 }
{
    (at(row, b / N) >> (b % N)) & 1
}

// Entry i of M bits, of a row whose entries have N. A loop, since the closure of a `fold` would have to repeat both clauses.
fn regrouped<const N: usize, const M: usize>(row: &[u8], i: usize) -> u8
    requires some { 0 < N }
    requires byte { N ≤ 8 }
{
    let mut entry = 0;
    for t in 0..M {
        entry |= bit::<N>(row, i.saturating_mul(M).saturating_add(t)) << (t % 8);
    }
    entry
}

pub fn pack(heap: Global, v: &[u8]) -> Result<Vec<u8>, AllocError> {
    (0..width(v.len()))
        .map(|j| regrouped::<5, 8>(v, j))
        .collect(heap)
}

// The code of element i, 0 to 31.
fn element(bytes: &[u8], i: usize) -> u8 {
    regrouped::<8, 5>(bytes, i)
}

pub fn unpack(heap: Global, bytes: &[u8], k: usize) -> Result<Vec<u8>, AllocError> {
    (0..k).map(|i| element(bytes, i)).collect(heap)
}

// The first of the k elements that is 31.
pub fn first_31(bytes: &[u8], k: usize) -> Option<usize> {
    (0..k).find(|&i| element(bytes, i) == 31)
}

// Whether a bit above the k elements is set.
pub fn pad_is_set(bytes: &[u8], k: usize) -> bool {
    (k.saturating_mul(5)..bytes.len().saturating_mul(8)).any(|b| bit::<8>(bytes, b) == 1)
}
