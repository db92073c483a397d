// The second challenges: a bit for each round, from a digest that takes in the first answers as they stand in the signature.
ghost use Rattle.std.specs.Prelude.{◌≡◌, ◌+◌, ◌≤◌, ◌++◌, length};
ghost use Rattle.wire.specs.Layout.{part};
ghost use Rattle.suite.specs.Calls.{first};

use crate::labels;
use suite::Suite;

// The bytes whose lowest bits are the rounds' bits: the stream of h2 = d(6, D ‖ σ0 ‖ h1 ‖ σ1).
pub fn challenge_bits<S: Suite>(
    suite: &S,
    d: &[u8; 32],
    base: &[u8; 32],
    h1: &[u8; 32],
    answers: &[u8],
    bits: &mut [u8],
)
    requires short { length answers.now ≤ 65536 }
    requires few { length bits.old ≤ 269 }
    ensures { bits.new ≡ first ((S.Suite.meaning suite.now).e 12 ((S.Suite.meaning suite.now).d 6 (d.now ++ (base.now ++ (h1.now ++ answers.now))))) (length bits.old) }
{
    let head = [*d, *base, *h1];
    let h2 = suite.digest_within(labels::SECOND_HASH, head.as_flattened(), answers);
    suite.stream_within(labels::BITS, &h2, bits);
}

// The same, with σ1 the `size` bytes of a signature from byte 64 on.
pub fn second_challenges<S: Suite>(
    suite: &S,
    d: &[u8; 32],
    base: &[u8; 32],
    h1: &[u8; 32],
    signature: &[u8],
    size: usize,
    bits: &mut [u8],
)
    requires within { 64 + size ≤ length signature.now }
    requires short { size ≤ 65536 }
    requires few { length bits.old ≤ 269 }
    ensures { bits.new ≡ first ((S.Suite.meaning suite.now).e 12 ((S.Suite.meaning suite.now).d 6 (d.now ++ (base.now ++ (h1.now ++ part signature.now 64 size))))) (length bits.old) }
{
    challenge_bits(suite, d, base, h1, &signature[64..64 + size], bits);
}
