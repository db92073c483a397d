//! A padded message in parts, read byte by byte and lane by lane.
ghost use Rattle.std.specs.Prelude.{◌≡◌, ℕ, List, ◌+◌, ◌<◌, ◌≤◌, length, drop, slice_index};
ghost use Rattle.sha3.specs.Sponge.{lane_from};
ghost use Rattle.sha3.specs.Fed.{fed, said};

use crate::message::{Filling, Message};
use std::array::from_fn;

/// Bytes that are read by lanes.
pub trait Lanes {
    ghost bytes: { Self → List ℕ };

    // Whether a lane can be read from a place.
    ghost reaches: { Self → ℕ → Type 0 };

    /// The lane whose bytes stand from k.
    fn lane(&self, k: usize) -> u64
        requires { reaches self.now k }
        ensures { result ≡ lane_from (bytes self.now) k };
}

impl Lanes for &[u8] {
    ghost bytes = { λ s. s.now };

    ghost reaches = { λ s k. k + 8 ≤ length s.now };

    fn lane(&self, k: usize) -> u64 {
        u64::from_le_bytes(self[k..k + 8].try_into().unwrap())
    }
}

/// A message and the filling of its last block.
#[derive(Clone, Copy)]
pub struct Input<'a> {
    pub message: Message<'a>,
    pub filling: Filling,
}

// Byte k of an input.
fn input_byte(input: Input<'_>, k: usize) -> u8
    ensures { result ≡ slice_index (fed input.entry) k }
{
    let Message { label, head, tail } = input.message;
    if k < label.len() {
        return label[k];
    }
    let i = k - label.len();
    if i < head.len() {
        return head[i];
    }
    let j = i - head.len();
    if j < tail.len() {
        return tail[j];
    }
    input.filling.byte(j - tail.len())
}

// The lane whose bytes stand from k in an input, each read on its own.
fn mixed_lane(input: Input<'_>, k: usize) -> u64
    requires { k < 200 }
    ensures { result ≡ lane_from (fed input.entry) k }
{
    u64::from_le_bytes(from_fn(|b| input_byte(input, k + b)))
}

// The lane whose bytes stand from k in an input: at once where they lie in one part.
fn input_lane(input: Input<'_>, k: usize) -> u64
    requires { k < 200 }
    ensures { result ≡ lane_from (fed input.entry) k }
{
    let Message { label, head, tail } = input.message;
    if k < label.len() {
        return mixed_lane(input, k);
    }
    let i = k - label.len();
    if i + 8 <= head.len() {
        return head.lane(i);
    }
    if i < head.len() {
        return mixed_lane(input, k);
    }
    let j = i - head.len();
    if j + 8 <= tail.len() {
        return tail.lane(j);
    }
    mixed_lane(input, k)
}

impl Lanes for Input<'_> {
    ghost bytes = { fed };

    ghost reaches = { λ _ k. k < 200 };

    fn lane(&self, k: usize) -> u64 {
        input_lane(*self, k)
    }
}

// What is left of an input past the first bytes of its message.
pub fn rest_of<'a>(input: Input<'a>, at: usize) -> Input<'a>
    requires { at ≤ length (said input.message) }
    ensures { fed result ≡ drop at (fed input.entry) }
{
    let Message { label, head, tail } = input.message;
    let filling = input.filling;
    if at < label.len() {
        return Input {
            message: Message {
                label: &label[at..],
                head,
                tail,
            },
            filling,
        };
    }
    let i = at - label.len();
    if i < head.len() {
        return Input {
            message: Message {
                label: &[],
                head: &head[i..],
                tail,
            },
            filling,
        };
    }
    Input {
        message: Message {
            label: &[],
            head: &tail[i - head.len()..],
            tail: &[],
        },
        filling,
    }
}
