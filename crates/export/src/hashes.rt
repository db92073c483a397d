// Keccak-f, SHA3-256 and SHAKE128 (FIPS 202) for C.
ghost use Rattle.std.specs.Prelude.{◌≡◌, length};
ghost use Rattle.sha3.specs.Sponge.{later};
ghost use Rattle.sha3.specs.Hash.{shake128 as shake, PaddedSha3, PaddedShake, Sha3Bits, ShakeBits};
ghost use Rattle.export.specs.Calls.{status_of, bytes_of};
ghost use Rattle.export.specs.Hashes.{rows_of, flat, digest_call, permute_call};

use keccak::{State, permute};
use sha3::{sha3_256, shake128};

// The state of 25 lanes, row by row.
fn state_of(lanes: &[u64]) -> State
    requires { length lanes.now ≡ 25 }
    ensures { result ≡ rows_of lanes.now }
{
    let (rows, _) = lanes.as_chunks();
    *rows.first_chunk().unwrap()
}

#[tactic(auto, using(sha3::proofs::Sponge::later_none, sha3::proofs::Sponge::later_more))]
fn permute_often(mut a: State, times: usize) -> State
    ensures { result ≡ later times a }
{
    for _ in 0..times {
        let next = permute(a);
        a = next;
    }
    a
}

// Writes a state over 25 lanes. By index: after `a.as_flattened()` the proof lacks the length of each row.
fn put(a: State, lanes: &mut [u64])
    requires { length lanes.old ≡ 25 }
    ensures { lanes.new ≡ flat a }
{
    lanes.copy_from_slice(&[
        a[0][0], a[0][1], a[0][2], a[0][3], a[0][4], a[1][0], a[1][1], a[1][2], a[1][3], a[1][4],
        a[2][0], a[2][1], a[2][2], a[2][3], a[2][4], a[3][0], a[3][1], a[3][2], a[3][3], a[3][4],
        a[4][0], a[4][1], a[4][2], a[4][3], a[4][4],
    ]);
}

/// Keccak-f[1600] on 25 lanes, `times` times. Status 1 unless there are 25; they are zeros then.
pub fn beltscarp_keccak_f(lanes: &mut [u64], times: usize) -> u32
    ensures status { result ≡ status_of (permute_call lanes.old times) }
    ensures lanes { lanes.new ≡ bytes_of (length lanes.old) (permute_call lanes.old times) }
{
    if lanes.len() != 25 {
        lanes.fill(0);
        return 1;
    }
    put(permute_often(state_of(lanes), times), lanes);
    0
}

/// SHA3-256 of a message. Status 1 unless `out` has 32 bytes; they are zeros then.
pub fn beltscarp_sha3_256(message: &[u8], out: &mut [u8]) -> u32
    ensures status { result ≡ status_of (digest_call message.now (length out.old)) }
    ensures digest { out.new ≡ bytes_of (length out.old) (digest_call message.now (length out.old)) }
    ensures padding { result ≡ 0 → PaddedSha3 message.now }
    ensures bits { result ≡ 0 → Sha3Bits message.now out.new }
{
    if out.len() != 32 {
        out.fill(0);
        return 1;
    }
    out.copy_from_slice(&sha3_256(message));
    0
}

/// Fills `out` with the first bytes of SHAKE128 of a message.
pub fn beltscarp_shake128(message: &[u8], out: &mut [u8])
    ensures stream { out.new ≡ shake message.now (length out.old) }
    ensures padding { PaddedShake message.now }
    ensures bits { ShakeBits message.now out.new }
{
    shake128(message, out);
}
