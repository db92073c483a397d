// Signing and verification, as C calls them.
ghost use Rattle.std.specs.Prelude.{◌≡◌, length, replicate};
ghost use Rattle.refusal.specs.Outcome.{told as ending};
ghost use Rattle.gf31.specs.Modulo.{coding31};
ghost use Rattle.scheme.specs.Signing.{sign_of};
ghost use Rattle.scheme.specs.Verifying.{verify_of};
ghost use Rattle.export.specs.Calls.{answer_of, numbers_in, written_by, set_by, asked};

/// `beltscarp_sign` of the library.
#[unsafe(no_mangle)]
pub extern "C" fn beltscarp_sign(
    suite: u32,
    n: usize,
    m: usize,
    r: usize,
    message: &[u8],
    map: &mut [u8],
    list: &mut [u8],
    secret: &mut [u8],
    key: &[u8],
    answer: &mut [u8],
    told: &mut [u64],
) -> u32
    ensures status { result ≡ answer_of (asked (length told.old) suite (λ M. ending (sign_of coding31 M (set_by n m r) message.now (length map.old) (length list.old) (length secret.old) (length answer.old) key.now))) }
    ensures numbers { told.new ≡ numbers_in (length told.old) (asked (length told.old) suite (λ M. ending (sign_of coding31 M (set_by n m r) message.now (length map.old) (length list.old) (length secret.old) (length answer.old) key.now))) }
    ensures bytes { answer.new ≡ written_by (length answer.old) (asked (length told.old) suite (λ M. sign_of coding31 M (set_by n m r) message.now (length map.old) (length list.old) (length secret.old) (length answer.old) key.now)) }
    ensures zeros { secret.new ≡ replicate (length secret.old) 0 }
{
    export::signatures::beltscarp_sign(
        suite, n, m, r, message, map, list, secret, key, answer, told,
    )
}

/// `beltscarp_verify` of the library.
#[unsafe(no_mangle)]
pub extern "C" fn beltscarp_verify(
    suite: u32,
    n: usize,
    m: usize,
    r: usize,
    message: &[u8],
    map: &mut [u8],
    list: &mut [u8],
    key: &[u8],
    signature: &[u8],
    told: &mut [u64],
) -> u32
    ensures status { result ≡ answer_of (asked (length told.old) suite (λ M. verify_of coding31 M (set_by n m r) message.now (length map.old) (length list.old) key.now signature.now)) }
    ensures numbers { told.new ≡ numbers_in (length told.old) (asked (length told.old) suite (λ M. verify_of coding31 M (set_by n m r) message.now (length map.old) (length list.old) key.now signature.now)) }
{
    export::signatures::beltscarp_verify(suite, n, m, r, message, map, list, key, signature, told)
}
