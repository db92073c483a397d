//! The steps θ, ρ, π and χ, which every round makes alike.
ghost use Rattle.std.specs.Prelude.{◌≡◌, ◌<◌};
ghost use Rattle.keccak.specs.State.{five as row};
ghost use Rattle.keccak.specs.Lanes.{parity_c, effect_d, theta_of, rho_of, pi_of, chi_of};
ghost use Rattle.keccak.specs.Bits.{ThetaBits, RhoBits, PiBits, ChiBits};

use crate::State;
use crate::state::{five, rows};

// The parity of the five lanes of column x.
fn parity(a: State, x: usize) -> u64
    requires { x < 5 }
    ensures { result ≡ parity_c a x }
{
    a[0][x] ^ a[1][x] ^ a[2][x] ^ a[3][x] ^ a[4][x]
}

// What θ adds to each lane of each column.
fn effects(a: State) -> [u64; 5]
    ensures { result ≡ row (effect_d a) }
{
    let c = five(|x| parity(a, x));
    five(|x| c[(x + 4) % 5] ^ c[(x + 1) % 5].rotate_left(1))
}

/// θ: each bit has the parities of two columns added.
pub fn theta(a: State) -> State
    ensures lanes { result ≡ theta_of a }
    ensures bits { ThetaBits a result }
{
    let d = effects(a);
    rows(|x, y| a[y][x] ^ d[x])
}

// The offsets of ρ modulo 64, row by row.
const OFFSETS: [[u32; 5]; 5] = [
    [0, 1, 62, 28, 27],
    [36, 44, 6, 55, 20],
    [3, 10, 43, 25, 39],
    [41, 45, 15, 21, 8],
    [18, 2, 61, 56, 14],
];

/// ρ: each lane is turned by its offset.
pub fn rho(a: State) -> State
    ensures lanes { result ≡ rho_of a }
    ensures bits { RhoBits a result }
{
    rows(|x, y| a[y][x].rotate_left(OFFSETS[y][x]))
}

/// π: the lanes change their places.
pub fn pi(a: State) -> State
    ensures lanes { result ≡ pi_of a }
    ensures bits { PiBits a result }
{
    rows(|x, y| a[x][(x + 3 * y) % 5])
}

/// χ: each bit has a product of the next two of its row added.
pub fn chi(a: State) -> State
    ensures lanes { result ≡ chi_of a }
    ensures bits { ChiBits a result }
{
    rows(|x, y| a[y][x] ^ (!a[y][(x + 1) % 5] & a[y][(x + 2) % 5]))
}
