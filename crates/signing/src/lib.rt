// Signing: the signature of a message under a secret key.
#![tactic(auto)]

ghost use Rattle.std.specs.Prelude.{◌≡◌, ◌*◌, ◌≤◌, length, replicate};
ghost use Rattle.refusal.specs.Outcome.{told, written};
ghost use Rattle.field.specs.Coding.{reads};
ghost use Rattle.params.specs.Sizes.{coefficients_of, signature_length};
ghost use Rattle.scheme.specs.Signing.{sign_buffers_of, signed_of, sign_of};

mod answer;
mod commit;
mod finish;
mod pool;
mod response;
mod rounds;
mod signer;
mod write;

use field::Field;
use keys::{SECRET, halves, lent};
use packing::encoding::Encoding;
use params::{GoodSet, Set, drawing_len};
use refusal::{Buffer, Refusal};
use scheme::ask::draw_into;
use scheme::sizes::MESSAGE_LIMIT;
use scheme::{Instance, labels};
use signer::{Desk, Signer};
use suite::Suite;
use wiping::Wiped;

// The bytes that drawing the secret vector reads.
const OWN: usize = 136;

// The lengths of the buffers that signing is lent. Each call lends other buffers, and the order in which they are refused is its own.
fn check_buffers(
    encoding: Encoding,
    set: GoodSet,
    map: usize,
    list: usize,
    secret: usize,
    answer: usize,
) -> Result<(), Refusal>
    ensures { result ≡ sign_buffers_of encoding.bits set.set map list secret answer }
{
    lent(Buffer::Map, map >= drawing_len(set.coefficients()))?;
    lent(Buffer::List, list >= 64 * set.set.r)?;
    lent(Buffer::Secret, secret >= SECRET)?;
    lent(Buffer::Answer, answer == set.signature_len(encoding))
}

// Writes the signature under the seeds K and S of a secret key, over buffers that are long enough, each by itself, as C lends
// them.
fn sign_seeds<F: Field, S: Suite>(
    set: GoodSet,
    suite: &S,
    message: &[u8],
    map: &mut [u8],
    list: &mut [u8],
    secret: &mut [u8],
    k: &[u8; 32],
    seed: &[u8; 32],
    answer: &mut [u8],
) -> Result<(), Refusal>
    requires message { length message.now ≤ 65536 }
    requires map { reads (coefficients_of set.set) ≤ length map.old }
    requires list { 64 * set.set.r ≤ length list.old }
    requires secret { 1024 ≤ length secret.old }
    requires answer { length answer.old ≡ signature_length F.Field.coding.bits set.set }
    requires zeros { answer.old ≡ replicate (length answer.old) 0 }
    ensures answer { result ≡ told (signed_of F.Field.coding (S.Suite.meaning suite.now) set.set k.now seed.now message.now) }
    ensures bytes { answer.new ≡ written (length answer.old) (signed_of F.Field.coding (S.Suite.meaning suite.now) set.set k.now seed.now message.now) }
{
    let Set { n, m: _, r } = set.set;
    let count = set.coefficients();
    let (own, rest) = secret.split_at_mut(OWN);
    let (pool, rest) = rest.split_first_chunk_mut().unwrap();
    let work = rest.first_chunk_mut().unwrap();
    let mut desk = Desk { pool, work };
    draw_into::<F, S>(suite, labels::SECRET, k, own, n)?;
    draw_into::<F, S>(suite, labels::MAP, seed, map, count)?;
    let randomizer = suite.digest_within(labels::RANDOMIZER, k, message);
    let d = suite.digest_within(labels::MESSAGE, &randomizer, message);
    let signer = Signer::<F, S> {
        instance: Instance::new(set, suite, &map[0..count]),
        s: &own[0..n],
        k,
        randomizer: &randomizer,
        d: &d,
    };
    signer.sign(&mut desk, &mut list[0..r * 64], answer)
}

// The signature of a message. However it ends, `secret` is zeros; where it is refused, so is `answer`.
pub fn sign<F: Field, S: Suite>(
    set: Set,
    suite: &S,
    message: &[u8],
    map: &mut [u8],
    list: &mut [u8],
    secret: &mut [u8],
    key: &[u8],
    answer: &mut [u8],
) -> Result<(), Refusal>
    ensures answer { result ≡ told (sign_of F.Field.coding (S.Suite.meaning suite.now) set message.now (length map.old) (length list.old) (length secret.old) (length answer.old) key.now) }
    ensures bytes { answer.new ≡ written (length answer.old) (sign_of F.Field.coding (S.Suite.meaning suite.now) set message.now (length map.old) (length list.old) (length secret.old) (length answer.old) key.now) }
    ensures zeros { secret.new ≡ replicate (length secret.old) 0 }
{
    answer.fill(0);
    let guard = Wiped { items: secret };
    let set = set.check()?;
    if message.len() > MESSAGE_LIMIT {
        return Err(Refusal::MessageTooLong);
    }
    check_buffers(
        F::encoding(),
        set,
        map.len(),
        list.len(),
        guard.items.len(),
        answer.len(),
    )?;
    let (k, seed) = halves(key)?;
    sign_seeds::<F, S>(set, suite, message, map, list, guard.items, k, seed, answer)
}
