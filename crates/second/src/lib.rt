// The second signer: keys, signatures and verdicts worked out a second time, plainly and over owned vectors, to hold against the kit's.
#![tactic(auto)]

mod answers;
mod draws;
mod judge;
mod key;
mod layout;
pub mod manner;
mod map;
mod numbers;
mod opening;
mod packed;
pub mod refused;
mod round;
mod shape;
mod sign;
pub mod trouble;

use std::alloc::Global;

// n variables, m equations and r rounds. Apart from the kit's `Set`: the second signer shares no type with the kit but its suites and their refusals.
#[derive(Clone, Copy)]
pub struct Params {
    pub n: usize,
    pub m: usize,
    pub r: usize,
}

// A suite and a set, and the heap on which everything is worked out.
#[derive_where(Clone, Copy)]
pub struct Signer<'a, S> {
    pub heap: Global,
    pub suite: &'a S,
    pub p: Params,
}
