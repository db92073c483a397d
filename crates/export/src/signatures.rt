// Signing and verification, for C.
ghost use Rattle.std.specs.Prelude.{◌≡◌, length, replicate};
ghost use Rattle.refusal.specs.Outcome.{told as ending};
ghost use Rattle.gf31.specs.Modulo.{coding31};
ghost use Rattle.scheme.specs.Signing.{sign_of};
ghost use Rattle.scheme.specs.Verifying.{verify_of};
ghost use Rattle.export.specs.Calls.{answer_of, numbers_in, written_by, set_by, asked};

use crate::calls::{suite_by, tell};
use gf31::Gf31;
use params::Set;
use signing::sign;
use suites::Named;
use verification::verify;

/// The signature of a message under a secret key. Status 0: `answer` is the signature. Status 1: refused, and `told` has number, layer
/// and place. Status 2: no such suite, or `told` has not three places. `answer` and `told` are zeros where nothing else is said.
/// `secret` is zeros, every byte, however the call ends.
pub fn beltscarp_sign(
    suite: u32,
    n: usize,
    m: usize,
    r: usize,
    message: &[u8],
    map: &mut [u8],
    list: &mut [u8],
    secret: &mut [u8],
    key: &[u8],
    answer: &mut [u8],
    told: &mut [u64],
) -> u32
    ensures status { result ≡ answer_of (asked (length told.old) suite (λ M. ending (sign_of coding31 M (set_by n m r) message.now (length map.old) (length list.old) (length secret.old) (length answer.old) key.now))) }
    ensures numbers { told.new ≡ numbers_in (length told.old) (asked (length told.old) suite (λ M. ending (sign_of coding31 M (set_by n m r) message.now (length map.old) (length list.old) (length secret.old) (length answer.old) key.now))) }
    ensures bytes { answer.new ≡ written_by (length answer.old) (asked (length told.old) suite (λ M. sign_of coding31 M (set_by n m r) message.now (length map.old) (length list.old) (length secret.old) (length answer.old) key.now)) }
    ensures zeros { secret.new ≡ replicate (length secret.old) 0 }
{
    if told.len() == 3
        && let Some(named) = suite_by(suite)
    {
        let set = Set { n, m, r };
        let outcome = sign::<Gf31, Named>(set, &named, message, map, list, secret, key, answer);
        return tell(outcome, told);
    }
    secret.fill(0);
    answer.fill(0);
    told.fill(0);
    2
}

/// Whether a signature of a message is accepted under a public key. Status 0: accepted. Status 1: refused, and `told` has number,
/// layer and place. Status 2: no such suite, or `told` has not three places. `told` is zeros where nothing else is said.
pub fn beltscarp_verify(
    suite: u32,
    n: usize,
    m: usize,
    r: usize,
    message: &[u8],
    map: &mut [u8],
    list: &mut [u8],
    key: &[u8],
    signature: &[u8],
    told: &mut [u64],
) -> u32
    ensures status { result ≡ answer_of (asked (length told.old) suite (λ M. verify_of coding31 M (set_by n m r) message.now (length map.old) (length list.old) key.now signature.now)) }
    ensures numbers { told.new ≡ numbers_in (length told.old) (asked (length told.old) suite (λ M. verify_of coding31 M (set_by n m r) message.now (length map.old) (length list.old) key.now signature.now)) }
{
    if told.len() == 3
        && let Some(named) = suite_by(suite)
    {
        let set = Set { n, m, r };
        let outcome = verify::<Gf31, Named>(set, &named, message, map, list, key, signature);
        return tell(outcome, told);
    }
    told.fill(0);
    2
}
