//! Absorbing: the blocks of a padded message are added to a state, with a permutation after each.
ghost use Rattle.std.specs.Prelude.{◌≡◌, ℕ, ◌+◌, ◌*◌, ◌^◌, ◌<◌, ◌≤◌, length};
ghost use Rattle.sha3.specs.Fed.{said, fed};
ghost use Rattle.sha3.specs.Sponge.{block_lane, block_rows, block_added, absorbed, taken};

use crate::function::Function;
use crate::input::{Input, Lanes, rest_of};
use crate::message::{Filling, Message};
use keccak::{State, permute, rows};

// Lane j of the block at the front of some bytes.
fn front_lane<L: Lanes>(bytes: &L, function: Function, j: usize) -> u64
    requires lane { j < 25 }
    requires reaches { (k : ℕ) → k < 200 → k + 8 ≤ function.rate → L.reaches bytes.now k }
    ensures { result ≡ block_lane function.rate (L.bytes bytes.now) j }
{
    if 8 * j < function.rate {
        bytes.lane(8 * j)
    } else {
        0
    }
}

// The block at the front of some bytes.
fn front<L: Lanes>(bytes: &L, function: Function) -> State
    requires { (k : ℕ) → k < 200 → k + 8 ≤ function.rate → L.reaches bytes.now k }
    ensures { result ≡ block_rows function.rate (L.bytes bytes.now) }
{
    rows(|x, y| front_lane(bytes, function, 5 * y + x))
}

// The block at the front of an input: most lie in one part, and are read from it with no test of a byte's place.
fn front_block(input: Input<'_>, function: Function) -> State
    ensures { result ≡ block_rows function.rate (fed input.entry) }
{
    let Message { label, head, .. } = input.message;
    if label.is_empty() && function.rate <= head.len() {
        front(&head, function)
    } else {
        front(&input, function)
    }
}

// A state with the block at the front of an input added: in a call of its own, so that the state stays in memory and is added by wide words.
#[inline(never)]
fn with_block(s: State, input: Input<'_>, function: Function) -> State
    ensures { result ≡ block_added function.rate (fed input.entry) s }
{
    let block = front_block(input, function);
    rows(|x, y| s[y][x] ^ block[y][x])
}

// The state after some blocks of an input. A loop: the closure of a `fold` would need clauses of its own that say the same.
fn absorb(input: Input<'_>, function: Function, blocks: usize) -> State
    requires within { (i : ℕ) → i < blocks → i * function.rate ≤ length (said input.message) }
    requires fits { length (said input.message) < 2 ^ 64 }
    ensures { result ≡ absorbed function.rate (fed input.entry) blocks }
{
    let mut s = [[0; 5]; 5];
    for i in 0..blocks {
        let next = permute(with_block(s, rest_of(input, i * function.rate), function));
        s = next;
    }
    s
}

/// The state after a whole message.
pub fn take_in(message: Message<'_>, function: Function) -> State
    ensures { result ≡ taken function.rate function.suffix (said message.entry) }
{
    let Function { rate, suffix } = function;
    let len = message.label.len() + message.head.len() + message.tail.len();
    let filling = Filling {
        suffix,
        q: rate - len % rate,
    };
    absorb(Input { message, filling }, function, len / rate + 1)
}
