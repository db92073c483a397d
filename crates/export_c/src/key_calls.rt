// Key making and the check of a signature's vectors, as C calls them.
ghost use Rattle.std.specs.Prelude.{◌≡◌, true, length, replicate};
ghost use Rattle.refusal.specs.Outcome.{told as ending};
ghost use Rattle.gf31.specs.Modulo.{coding31};
ghost use Rattle.packing.specs.Laws.{Judges};
ghost use Rattle.params.specs.Sets.{good};
ghost use Rattle.params.specs.Sizes.{signature_length};
ghost use Rattle.wire.specs.Layout.{vectors_of, Faulty};
ghost use Rattle.keys.specs.Keys.{make_of};
ghost use Rattle.export.specs.Calls.{answer_of, numbers_in, written_by, set_by, heard, asked};

/// `beltscarp_make_key` of the library.
#[unsafe(no_mangle)]
pub extern "C" fn beltscarp_make_key(
    suite: u32,
    n: usize,
    m: usize,
    r: usize,
    map: &mut [u8],
    secret: &mut [u8],
    key: &[u8],
    answer: &mut [u8],
    told: &mut [u64],
) -> u32
    ensures status { result ≡ answer_of (asked (length told.old) suite (λ M. ending (make_of coding31 M (set_by n m r) (length map.old) (length secret.old) (length answer.old) key.now))) }
    ensures numbers { told.new ≡ numbers_in (length told.old) (asked (length told.old) suite (λ M. ending (make_of coding31 M (set_by n m r) (length map.old) (length secret.old) (length answer.old) key.now))) }
    ensures bytes { answer.new ≡ written_by (length answer.old) (asked (length told.old) suite (λ M. make_of coding31 M (set_by n m r) (length map.old) (length secret.old) (length answer.old) key.now)) }
    ensures zeros { secret.new ≡ replicate (length secret.old) 0 }
{
    export::key_calls::beltscarp_make_key(suite, n, m, r, map, secret, key, answer, told)
}

/// `beltscarp_check_vectors` of the library.
#[unsafe(no_mangle)]
pub extern "C" fn beltscarp_check_vectors(
    n: usize,
    m: usize,
    r: usize,
    signature: &[u8],
    told: &mut [u64],
) -> u32
    ensures status { result ≡ answer_of (heard (length told.old) (vectors_of 31 5 (set_by n m r) signature.now)) }
    ensures numbers { told.new ≡ numbers_in (length told.old) (heard (length told.old) (vectors_of 31 5 (set_by n m r) signature.now)) }
    ensures judged { length told.old ≡ 3 → good (set_by n m r) ≡ true → length signature.now ≡ signature_length 5 (set_by n m r) → Judges (Faulty 31 5 (set_by n m r) signature.now) (vectors_of 31 5 (set_by n m r) signature.now) }
{
    export::key_calls::beltscarp_check_vectors(n, m, r, signature, told)
}
