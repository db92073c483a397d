//! The static library that C programs link: each function is that of `export`, under the same clauses.
#![tactic(auto)]

mod hashes;
mod key_calls;
mod maps;
mod signatures;
