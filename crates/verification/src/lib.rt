// Verification: whether a signature of a message is accepted under a public key.
#![tactic(auto)]

ghost use Rattle.std.specs.Prelude.{◌≡◌, ◌*◌, ◌≤◌, length, Ok, IfOk};
ghost use Rattle.refusal.specs.Outcome.{and_then, told};
ghost use Rattle.field.specs.Codes.{Vector};
ghost use Rattle.field.specs.Coding.{reads};
ghost use Rattle.params.specs.Sets.{set_of};
ghost use Rattle.params.specs.Sizes.{coefficients_of};
ghost use Rattle.wire.specs.Layout.{vectors_of};
ghost use Rattle.keys.specs.Keys.{key_of};
ghost use Rattle.scheme.specs.Signing.{message_of};
ghost use Rattle.scheme.specs.Verifying.{decided_of, verify_buffers_of, verify_of, Verifies};
ghost use Rattle.scheme.specs.Fits.{Fits};
ghost use Rattle.verification.specs.Steps.{judged_of, heard_of};

mod list;
mod opening;
mod signature;
mod verifier;

use field::Field;
use keys::{SEED, check_key, lent};
use params::{GoodSet, Set, drawing_len};
use refusal::{Buffer, Refusal};
use scheme::ask::draw_into;
use scheme::challenge::challenge_bits;
use scheme::sizes::{CHALLENGES, MESSAGE_LIMIT, ROUNDS};
use scheme::{Instance, labels};
use signature::Signature;
use suite::Suite;
use vectors::packed::load;
use verifier::Verifier;

// Accepted where σ0 is the digest of the list.
fn judge<S: Suite>(suite: &S, list: &[u8], base: &[u8; 32]) -> Result<(), Refusal>
    requires { length list.now ≤ 131072 }
    ensures { result ≡ judged_of (S.Suite.meaning suite.now) list.now base.now }
{
    if suite.digest_within(labels::LIST, list, &[]) == *base {
        Ok(())
    } else {
        Err(Refusal::NotAccepted)
    }
}

// Decides with the map and the key's vector: the challenges, the list and its digest.
fn decide_drawn<F: Field, S: Suite>(
    instance: &Instance<'_, F, S>,
    message: &[u8],
    v: &[u8],
    list: &mut [u8],
    signature: &Signature<'_, F>,
) -> Result<(), Refusal>
    requires message { length message.now ≤ 65536 }
    requires v { Vector F.Field.coding.q instance.now.set.set.m v.now }
    requires list { length list.old ≡ instance.now.set.set.r * 64 }
    requires same { signature.now.set.set ≡ instance.now.set.set }
    ensures { result ≡ heard_of F.Field.coding (S.Suite.meaning instance.now.suite.now) instance.now.set.set message.now signature.now.bytes.now instance.now.map.cs.now v.now }
{
    let suite = instance.suite;
    let r = instance.set.set.r;
    // Arrays of which the set takes a part: no call takes heap.
    let mut elements = [0u8; CHALLENGES];
    let mut bytes = [0u8; ROUNDS];
    let base = signature.base();
    let d = suite.digest_within(labels::MESSAGE, signature.randomizer(), message);
    let h1 = suite.digest_within(labels::FIRST_HASH, &d, base);
    draw_into::<F, S>(suite, labels::ALPHAS, &h1, &mut elements, r)?;
    let bits = &mut bytes[0..r];
    challenge_bits(suite, &d, base, &h1, signature.answers(), bits);
    let verifier = Verifier {
        instance,
        signature,
        v,
        alphas: &elements[0..r],
        bits,
    };
    verifier.write_list(list);
    judge(suite, list, base)
}

// Decides on a key and a signature that were checked, in buffers that are long enough.
fn decide<F: Field, S: Suite>(
    suite: &S,
    message: &[u8],
    map: &mut [u8],
    list: &mut [u8],
    key: &[u8],
    signature: &Signature<'_, F>,
) -> Result<(), Refusal>
    requires message { length message.now ≤ 65536 }
    requires map { reads (coefficients_of signature.now.set.set) ≤ length map.old }
    requires list { 64 * signature.now.set.set.r ≤ length list.old }
    requires key { key_of F.Field.coding.q F.Field.coding.bits signature.now.set.set key.now ≡ Ok tt }
    ensures { result ≡ decided_of F.Field.coding (S.Suite.meaning suite.now) signature.now.set.set key.now message.now signature.now.bytes.now }
{
    let set = signature.set;
    let count = set.coefficients();
    let Set { n: _, m, r } = set.set;
    // Arrays of which the set takes a part: no call takes heap.
    let mut vector = [0u8; 64];
    let seed = key.first_chunk::<SEED>().unwrap();
    draw_into::<F, S>(suite, labels::MAP, seed, map, count)?;
    let v = &mut vector[0..m];
    load::<F>(&key[SEED..], v);
    let instance = Instance::<F, S>::new(set, suite, &map[0..count]);
    decide_drawn::<F, S>(&instance, message, v, &mut list[0..r * 64], signature)
}

// The lengths of the buffers that verification is lent. Each call lends other buffers, and the order in which they are refused is
// its own.
fn check_buffers(set: GoodSet, map: usize, list: usize) -> Result<(), Refusal>
    ensures { result ≡ verify_buffers_of set.set map list }
{
    lent(Buffer::Map, map >= drawing_len(set.coefficients()))?;
    lent(Buffer::List, list >= 64 * set.set.r)
}

// All that is checked before anything is worked out, in the order in which it is refused.
fn check_call<'a, F: Field>(
    set: Set,
    message: &[u8],
    map: usize,
    list: usize,
    key: &[u8],
    signature: &'a [u8],
) -> Result<Signature<'a, F>, Refusal>
    ensures answer { told result ≡ and_then (set_of set) (λ _. and_then (message_of message.now) (λ _. and_then (verify_buffers_of set map list) (λ _. and_then (key_of F.Field.coding.q F.Field.coding.bits set key.now) (λ _. vectors_of F.Field.coding.q F.Field.coding.bits set signature.now)))) }
    ensures set { IfOk result (λ checked. checked.set.set ≡ set) }
    ensures bytes { IfOk result (λ checked. checked.bytes.now ≡ signature.now) }
{
    let set = set.check()?;
    if message.len() > MESSAGE_LIMIT {
        return Err(Refusal::MessageTooLong);
    }
    check_buffers(set, map, list)?;
    check_key::<F>(set.set, key)?;
    Signature::check(set, signature)
}

// Whether `signature` is one of `message` under the public key `key`; `map` and `list` are room to work in.
pub fn verify<F: Field, S: Suite>(
    set: Set,
    suite: &S,
    message: &[u8],
    map: &mut [u8],
    list: &mut [u8],
    key: &[u8],
    signature: &[u8],
) -> Result<(), Refusal>
    ensures answer { result ≡ verify_of F.Field.coding (S.Suite.meaning suite.now) set message.now (length map.old) (length list.old) key.now signature.now }
    ensures accepts { Verifies F.Field.coding (S.Suite.meaning suite.now) set message.now (length map.old) (length list.old) key.now signature.now result }
    ensures signed { Fits F.Field.coding (S.Suite.meaning suite.now) set message.now (length map.old) (length list.old) key.now signature.now result }
{
    let signature = check_call::<F>(set, message, map.len(), list.len(), key, signature)?;
    decide::<F, S>(suite, message, map, list, key, &signature)
}
