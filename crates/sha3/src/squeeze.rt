//! Squeezing: the bytes of a state are given out, with a permutation after each block.
ghost use Rattle.std.specs.Prelude.{◌≡◌, ℕ, ◌+◌, ◌*◌, ◌/◌, ◌%◌, ◌^◌, ◌<◌, ◌≤◌, map, length, slice_index};
ghost use Rattle.std.specs.List.{range_with_len};
ghost use Rattle.sha3.specs.Sponge.{state_byte_of, squeezed_byte};

use crate::function::Function;
use keccak::State;

// Writes the first n bytes of a lane, low byte first, to the places from `at`.
fn put_lane(lane: u64, n: usize, out: &mut [u8], at: usize)
    requires bytes { n ≤ 8 }
    requires room { at + n ≤ length out.old }
    ensures before { (k : ℕ) → k < at → slice_index out.new k ≡ slice_index out.old k }
    ensures bytes { (b : ℕ) → b < n → slice_index out.new (at + b) ≡ lane / 2 ^ (8 * b) % 256 }
{
    out[at..at + n].copy_from_slice(&lane.to_le_bytes()[..n]);
}

// Writes the first lanes of a state to the places from `at`.
// By index: of the parts that `chunks_exact_mut` lends, a proof knows afterwards how long they are and not what is in them.
fn put_lanes(s: State, lanes: usize, out: &mut [u8], at: usize)
    requires lanes { lanes ≤ 25 }
    requires room { at + 8 * lanes ≤ length out.old }
    ensures before { (k : ℕ) → k < at → slice_index out.new k ≡ slice_index out.old k }
    ensures bytes { (k : ℕ) → k < 8 * lanes → slice_index out.new (at + k) ≡ state_byte_of s k }
{
    for j in 0..lanes {
        put_lane(s[j / 5][j % 5], 8, out, at + 8 * j);
    }
}

// Fills the places from `at`, of which there are at most 200, with the first bytes of a state.
fn put_rest(s: State, out: &mut [u8], at: usize)
    requires at { at ≤ length out.old }
    requires room { length out.old ≤ at + 200 }
    ensures before { (k : ℕ) → k < at → slice_index out.new k ≡ slice_index out.old k }
    ensures bytes { (k : ℕ) → at + k < length out.old → slice_index out.new (at + k) ≡ state_byte_of s k }
{
    let left = out.len() - at;
    let lanes = left / 8;
    put_lanes(s, lanes, out, at);
    if left % 8 > 0 {
        put_lane(s[lanes / 5][lanes % 5], left % 8, out, at + 8 * lanes);
    }
}

/// Fills `out` with what a state gives out in the blocks of a function.
// By number: of the blocks that `chunks_mut` lends, a proof knows afterwards how long they are and not what is in them.
pub fn squeeze(start: State, function: Function, out: &mut [u8])
    ensures { out.new ≡ map (squeezed_byte function.rate start) (range_with_len 0 (length out.old)) }
{
    let len = out.len();
    if len == 0 {
        return;
    }
    let rate = function.rate;
    let mut s = start;
    let blocks = (len - 1) / rate;
    for i in 0..blocks {
        put_lanes(s, rate / 8, out, i * rate);
        let next = keccak::permute(s);
        s = next;
    }
    put_rest(s, out, blocks * rate);
}
