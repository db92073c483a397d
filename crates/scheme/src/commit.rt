// The commitments of a round, over vectors that are packed one behind the other.
ghost use Rattle.std.specs.Prelude.{◌≡◌, ◌+◌, ◌≤◌, ◌++◌, length};
ghost use Rattle.field.specs.Codes.{Codes};
ghost use Rattle.packing.specs.Packed.{packed};
ghost use Rattle.scheme.specs.Signing.{X0, X1};

use crate::labels;
use field::Field;
use suite::Suite;
use vectors::packed::{store, store_both};

// The bytes that the packed vectors of a commitment take, at most: three of 64 elements.
pub const PACKED: usize = 192;

// The digest of r and of what was packed behind it, with r packed in the front of `room`.
fn commit<F: Field, S: Suite>(
    suite: &S,
    label: u8,
    r: &[u8],
    room: &mut [u8; 64],
    behind: &[u8],
) -> [u8; 32]
    requires few { length r.now ≤ 64 }
    requires codes { Codes F.Field.coding.q r.now }
    requires short { length behind.now ≤ 128 }
    ensures { result ≡ (S.Suite.meaning suite.now).d label (packed F.Field.coding.bits r.now ++ behind.now) }
{
    let head = &mut room[0..F::encoding().width(r.len())];
    store::<F>(r, head);
    suite.digest_within(label, head, behind)
}

// Commitment 0: d(0, r ‖ t ‖ e), packed in the front of `work`.
pub fn commit_0<F: Field, S: Suite>(
    suite: &S,
    r: &[u8],
    t: &[u8],
    e: &[u8],
    work: &mut [u8],
) -> [u8; 32]
    requires few_r { length r.now ≤ 64 }
    requires few_t { length t.now ≤ 64 }
    requires few_e { length e.now ≤ 64 }
    requires r { Codes F.Field.coding.q r.now }
    requires t { Codes F.Field.coding.q t.now }
    requires e { Codes F.Field.coding.q e.now }
    requires work { 192 ≤ length work.old }
    ensures { result ≡ (S.Suite.meaning suite.now).d 0 (X0 F.Field.coding.bits r.now t.now e.now) }
{
    let encoding = F::encoding();
    let both = encoding.width(t.len()) + encoding.width(e.len());
    let (front, back) = work.split_first_chunk_mut::<64>().unwrap();
    let behind = &mut back[0..both];
    store_both::<F>(t, e, behind);
    commit::<F, S>(suite, labels::COMMIT_0, r, front, behind)
}

// Commitment 1: d(1, r ‖ g), packed in the front of `work`.
pub fn commit_1<F: Field, S: Suite>(suite: &S, r: &[u8], g: &[u8], work: &mut [u8]) -> [u8; 32]
    requires few_r { length r.now ≤ 64 }
    requires few_g { length g.now ≤ 64 }
    requires r { Codes F.Field.coding.q r.now }
    requires g { Codes F.Field.coding.q g.now }
    requires work { 192 ≤ length work.old }
    ensures { result ≡ (S.Suite.meaning suite.now).d 1 (X1 F.Field.coding.bits r.now g.now) }
{
    let (front, back) = work.split_first_chunk_mut::<64>().unwrap();
    let behind = &mut back[0..F::encoding().width(g.len())];
    store::<F>(g, behind);
    commit::<F, S>(suite, labels::COMMIT_1, r, front, behind)
}
