// Keys: the check of a public key, and the making of one from a secret key.
#![tactic(auto)]

ghost use Rattle.std.specs.Prelude.{◌≡◌, ◌+◌, ◌≤◌, true, ◌++◌, length, replicate};
ghost use Rattle.refusal.specs.Outcome.{told, written, unless};
ghost use Rattle.field.specs.Codes.{Vector};
ghost use Rattle.field.specs.Coding.{reads};
ghost use Rattle.packing.specs.Packed.{width, packed};
ghost use Rattle.packing.specs.Laws.{Judges};
ghost use Rattle.params.specs.Sets.{good};
ghost use Rattle.params.specs.Sizes.{coefficients_of, key_length};
ghost use Rattle.algebra.specs.Quad.{F as map_of};
ghost use Rattle.keys.specs.Keys.{Halves, key_of, KeyFaulty, buffers_of, public_of, make_of};

use field::Field;
use packing::bits::inspect;
use packing::encoding::Encoding;
use params::{GoodSet, Set, drawing_len};
use quadratic::Map;
use refusal::{Buffer, Layer, Refusal};
use suite::Suite;
use suite::drawing::draw;
use vectors::packed::store;
use wiping::Wiped;

// The bytes of a seed, and of a secret buffer.
pub const SEED: usize = 32;

pub const SECRET: usize = 1024;

// The labels of the drawings that make a key.
pub const LABEL_MAP: u8 = 8;

pub const LABEL_SECRET: u8 = 9;

// A buffer that the caller lends: refused unless its length fits.
pub fn lent(buffer: Buffer, fits: bool) -> Result<(), Refusal>
    ensures { result ≡ unless fits (Refusal.BufferLength Layer.Signature buffer) }
{
    if fits {
        Ok(())
    } else {
        Err(Refusal::BufferLength {
            layer: Layer::Signature,
            buffer,
        })
    }
}

// The two seeds of a secret key.
pub fn halves(key: &[u8]) -> Result<(&[u8; SEED], &[u8; SEED]), Refusal>
    ensures { Halves key.now result }
{
    let (k, s) = key.split_first_chunk::<SEED>().ok_or(Refusal::KeyLength)?;
    let s = <&[u8; SEED]>::try_from(s).map_err(|_| Refusal::KeyLength)?;
    Ok((k, s))
}

// Whether `key` is a public key of the set: its length, its elements and its pad.
pub fn check_key<F: Field>(set: Set, key: &[u8]) -> Result<(), Refusal>
    ensures answer { result ≡ key_of F.Field.coding.q F.Field.coding.bits set key.now }
    ensures judged { good set ≡ true → length key.now ≡ key_length F.Field.coding.bits set → Judges (KeyFaulty F.Field.coding.q F.Field.coding.bits set key.now) result }
{
    let encoding = F::encoding();
    if key.len() != set.check()?.key_len(encoding) {
        return Err(Refusal::KeyLength);
    }
    let m = set.m;
    inspect(encoding, m, &key[SEED..]).map_err(|fault| fault.in_key(m))
}

// The lengths of the buffers that key making is lent. Each call lends other buffers, and the order in which they are refused is its own.
fn check_buffers(
    encoding: Encoding,
    set: GoodSet,
    map: usize,
    secret: usize,
    answer: usize,
) -> Result<(), Refusal>
    ensures { result ≡ buffers_of encoding.bits set.set map secret answer }
{
    lent(Buffer::Map, map >= drawing_len(set.coefficients()))?;
    lent(Buffer::Secret, secret >= SECRET)?;
    lent(Buffer::Answer, answer == set.key_len(encoding))
}

// Writes `seed` and then the packed form of the map at `x`.
fn write_packed<F: Field>(map: &Map<'_, F>, x: &[u8], seed: &[u8; SEED], answer: &mut [u8])
    requires x { Vector F.Field.coding.q map.now.n x.now }
    requires room { length answer.old ≡ 32 + width F.Field.coding.bits map.now.m }
    ensures { answer.new ≡ seed.now ++ packed F.Field.coding.bits (map_of F.Field.coding.ops map.now.m map.now.n map.now.cs.now x.now) }
{
    // An array of which the set takes a part: no call takes heap.
    let mut v = [0u8; 64];
    let entries = &mut v[0..map.m];
    map.evaluate(x, entries);
    answer[0..SEED].copy_from_slice(seed);
    store::<F>(entries, &mut answer[SEED..]);
}

// Writes the public key over buffers that are long enough.
fn write_public<F: Field, S: Suite>(
    set: GoodSet,
    suite: &S,
    map: &mut [u8],
    secret: &mut [u8],
    k: &[u8; SEED],
    s: &[u8; SEED],
    answer: &mut [u8],
) -> Result<(), Refusal>
    requires map { reads (coefficients_of set.set) ≤ length map.old }
    requires secret { 1024 ≤ length secret.old }
    requires answer { length answer.old ≡ key_length F.Field.coding.bits set.set }
    requires zeros { answer.old ≡ replicate (length answer.old) 0 }
    ensures answer { result ≡ told (public_of F.Field.coding (S.Suite.meaning suite.now) set.set k.now s.now) }
    ensures bytes { answer.new ≡ written (length answer.old) (public_of F.Field.coding (S.Suite.meaning suite.now) set.set k.now s.now) }
{
    let count = set.coefficients();
    let Set { n, m, r: _ } = set.set;
    draw::<F, S>(suite, LABEL_SECRET, k, secret, n)?;
    draw::<F, S>(suite, LABEL_MAP, s, map, count)?;
    write_packed(
        &Map::<F>::new(n, m, &map[0..count]),
        &secret[0..n],
        s,
        answer,
    );
    Ok(())
}

// The public key of a secret key. However it ends, `secret` is zeros; where it is refused, so is `answer`.
pub fn make_key<F: Field, S: Suite>(
    set: Set,
    suite: &S,
    map: &mut [u8],
    secret: &mut [u8],
    key: &[u8],
    answer: &mut [u8],
) -> Result<(), Refusal>
    ensures answer { result ≡ told (make_of F.Field.coding (S.Suite.meaning suite.now) set (length map.old) (length secret.old) (length answer.old) key.now) }
    ensures bytes { answer.new ≡ written (length answer.old) (make_of F.Field.coding (S.Suite.meaning suite.now) set (length map.old) (length secret.old) (length answer.old) key.now) }
    ensures zeros { secret.new ≡ replicate (length secret.old) 0 }
{
    answer.fill(0);
    let guard = Wiped { items: secret };
    let set = set.check()?;
    check_buffers(
        F::encoding(),
        set,
        map.len(),
        guard.items.len(),
        answer.len(),
    )?;
    let (k, s) = halves(key)?;
    write_public::<F, S>(set, suite, map, guard.items, k, s, answer)
}
