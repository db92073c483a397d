// Key making and the check of a signature's vectors, for C.
ghost use Rattle.std.specs.Prelude.{◌≡◌, true, length, replicate};
ghost use Rattle.refusal.specs.Outcome.{told as ending};
ghost use Rattle.gf31.specs.Modulo.{coding31};
ghost use Rattle.packing.specs.Laws.{Judges};
ghost use Rattle.params.specs.Sets.{good};
ghost use Rattle.params.specs.Sizes.{signature_length};
ghost use Rattle.wire.specs.Layout.{vectors_of, Faulty};
ghost use Rattle.keys.specs.Keys.{make_of};
ghost use Rattle.export.specs.Calls.{answer_of, numbers_in, written_by, set_by, heard, asked};

use crate::calls::{suite_by, tell};
use field::Field;
use gf31::Gf31;
use keys::make_key;
use params::Set;
use suites::Named;
use wire::check_vectors;

/// The public key of a secret key. Status 0: `answer` is the key. Status 1: refused, and `told` has number, layer and place.
/// Status 2: no such suite, or `told` has not three places. `answer` and `told` are zeros where nothing else is said. `secret` is zeros,
/// every byte, however the call ends.
pub fn beltscarp_make_key(
    suite: u32,
    n: usize,
    m: usize,
    r: usize,
    map: &mut [u8],
    secret: &mut [u8],
    key: &[u8],
    answer: &mut [u8],
    told: &mut [u64],
) -> u32
    ensures status { result ≡ answer_of (asked (length told.old) suite (λ M. ending (make_of coding31 M (set_by n m r) (length map.old) (length secret.old) (length answer.old) key.now))) }
    ensures numbers { told.new ≡ numbers_in (length told.old) (asked (length told.old) suite (λ M. ending (make_of coding31 M (set_by n m r) (length map.old) (length secret.old) (length answer.old) key.now))) }
    ensures bytes { answer.new ≡ written_by (length answer.old) (asked (length told.old) suite (λ M. make_of coding31 M (set_by n m r) (length map.old) (length secret.old) (length answer.old) key.now)) }
    ensures zeros { secret.new ≡ replicate (length secret.old) 0 }
{
    if told.len() == 3
        && let Some(named) = suite_by(suite)
    {
        let set = Set { n, m, r };
        let outcome = make_key::<Gf31, Named>(set, &named, map, secret, key, answer);
        return tell(outcome, told);
    }
    secret.fill(0);
    answer.fill(0);
    told.fill(0);
    2
}

/// The check of a signature's set, length and vectors. Status 0: lawful. Status 1: refused, and `told` has number, layer and place.
/// Status 2: `told` has not three places. `told` is zeros where nothing else is said.
pub fn beltscarp_check_vectors(
    n: usize,
    m: usize,
    r: usize,
    signature: &[u8],
    told: &mut [u64],
) -> u32
    ensures status { result ≡ answer_of (heard (length told.old) (vectors_of 31 5 (set_by n m r) signature.now)) }
    ensures numbers { told.new ≡ numbers_in (length told.old) (heard (length told.old) (vectors_of 31 5 (set_by n m r) signature.now)) }
    ensures judged { length told.old ≡ 3 → good (set_by n m r) ≡ true → length signature.now ≡ signature_length 5 (set_by n m r) → Judges (Faulty 31 5 (set_by n m r) signature.now) (vectors_of 31 5 (set_by n m r) signature.now) }
{
    if told.len() == 3 {
        let set = Set { n, m, r };
        let outcome = check_vectors(Gf31::encoding(), set, signature);
        return tell(outcome, told);
    }
    told.fill(0);
    2
}
