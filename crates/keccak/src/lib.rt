//! Keccak-f[1600] (FIPS 202, 3), on five rows of five 64-bit lanes that are passed by value.
//!
//!     let next = keccak::permute([[0; 5]; 5]);
//!
//! Each step is stated twice: on whole lanes, as it is computed, and on the bits A[x, y, z], as the standard has it.
#![tactic(auto)]

ghost use Rattle.std.specs.Prelude.{◌≡◌, ◌<◌};
ghost use Rattle.keccak.specs.Bits.{RoundBits, RoundsBits};
ghost use Rattle.keccak.specs.Rounds.{round_of, keccak_f};

pub use crate::constants::iota;
pub use crate::state::{five, rows};
pub use crate::steps::{chi, pi, rho, theta};

mod constants;
mod state;
mod steps;

/// Row y is element y, and its lane x stands at x.
pub type State = [[u64; 5]; 5];

// Round i.
fn round(a: State, i: usize) -> State
    requires { i < 24 }
    ensures lanes { result ≡ round_of a i }
    ensures bits { RoundBits a i result }
{
    iota(chi(pi(rho(theta(a)))), i)
}

/// The whole permutation.
pub fn permute(a: State) -> State
    ensures lanes { result ≡ keccak_f a }
    ensures bits { RoundsBits 24 a result }
{
    (0..24).fold(a, round)
}
