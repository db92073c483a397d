//! What programs of other languages call, over numbers and slices alone: hashes, the map, key making, signing and verification.
//! `export_c` is the same functions as a static library for C.
//!
//! A slice crosses as a pointer and then a length. No function asks anything of its numbers, lengths and bytes: what cannot be
//! answered is refused by a status. The caller owes what a reference owes: memory of that length, and no two buffers that overlap
//! where one of them is written.
#![tactic(auto)]

mod calls;
pub mod hashes;
pub mod key_calls;
pub mod maps;
pub mod signatures;
