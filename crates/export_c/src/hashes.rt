// Keccak-f, SHA3-256 and SHAKE128 (FIPS 202), as C calls them.
ghost use Rattle.std.specs.Prelude.{◌≡◌, length};
ghost use Rattle.sha3.specs.Hash.{shake128 as shake, PaddedSha3, PaddedShake, Sha3Bits, ShakeBits};
ghost use Rattle.export.specs.Calls.{status_of, bytes_of};
ghost use Rattle.export.specs.Hashes.{digest_call, permute_call};

/// `beltscarp_keccak_f` of the library.
#[unsafe(no_mangle)]
pub extern "C" fn beltscarp_keccak_f(lanes: &mut [u64], times: usize) -> u32
    ensures status { result ≡ status_of (permute_call lanes.old times) }
    ensures lanes { lanes.new ≡ bytes_of (length lanes.old) (permute_call lanes.old times) }
{
    export::hashes::beltscarp_keccak_f(lanes, times)
}

/// `beltscarp_sha3_256` of the library.
#[unsafe(no_mangle)]
pub extern "C" fn beltscarp_sha3_256(message: &[u8], out: &mut [u8]) -> u32
    ensures status { result ≡ status_of (digest_call message.now (length out.old)) }
    ensures digest { out.new ≡ bytes_of (length out.old) (digest_call message.now (length out.old)) }
    ensures padding { result ≡ 0 → PaddedSha3 message.now }
    ensures bits { result ≡ 0 → Sha3Bits message.now out.new }
{
    export::hashes::beltscarp_sha3_256(message, out)
}

/// `beltscarp_shake128` of the library.
#[unsafe(no_mangle)]
pub extern "C" fn beltscarp_shake128(message: &[u8], out: &mut [u8])
    ensures stream { out.new ≡ shake message.now (length out.old) }
    ensures padding { PaddedShake message.now }
    ensures bits { ShakeBits message.now out.new }
{
    export::hashes::beltscarp_shake128(message, out);
}
