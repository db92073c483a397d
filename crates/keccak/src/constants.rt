//! The step ι, and the constants of the rounds.
ghost use Rattle.std.specs.Prelude.{◌≡◌, ℕ, ◌<◌};
ghost use Rattle.keccak.specs.State.{bit_of};
ghost use Rattle.keccak.specs.Constants.{lane_rc, bit_rc, iota_of};
ghost use Rattle.keccak.specs.Bits.{IotaBits};

use crate::State;

const ROUND_CONSTANTS: [u64; 24] = [
    0x0000_0000_0000_0001,
    0x0000_0000_0000_8082,
    0x8000_0000_0000_808a,
    0x8000_0000_8000_8000,
    0x0000_0000_0000_808b,
    0x0000_0000_8000_0001,
    0x8000_0000_8000_8081,
    0x8000_0000_0000_8009,
    0x0000_0000_0000_008a,
    0x0000_0000_0000_0088,
    0x0000_0000_8000_8009,
    0x0000_0000_8000_000a,
    0x0000_0000_8000_808b,
    0x8000_0000_0000_008b,
    0x8000_0000_0000_8089,
    0x8000_0000_0000_8003,
    0x8000_0000_0000_8002,
    0x8000_0000_0000_0080,
    0x0000_0000_0000_800a,
    0x8000_0000_8000_000a,
    0x8000_0000_8000_8081,
    0x8000_0000_0000_8080,
    0x0000_0000_8000_0001,
    0x8000_0000_8000_8008,
];

fn constant(i: usize) -> u64
    requires { i < 24 }
    ensures value { result ≡ lane_rc i }
    ensures bits { (z : ℕ) → z < 64 → bit_of result z ≡ bit_rc i z }
{
    ROUND_CONSTANTS[i]
}

/// ι: the first lane has the constant of round i added. The rounds are 0 to 23.
pub fn iota(a: State, i: usize) -> State
    requires { i < 24 }
    ensures lanes { result ≡ iota_of a i }
    ensures bits { IotaBits a i result }
{
    let [[lane, x1, x2, x3, x4], y1, y2, y3, y4] = a;
    [[lane ^ constant(i), x1, x2, x3, x4], y1, y2, y3, y4]
}
