// The layout of a signature, and the check of every vector in it.
#![tactic(auto)]

ghost use Rattle.std.specs.Prelude.{◌≡◌, ◌<◌, true, length};
ghost use Rattle.packing.specs.Laws.{Judges};
ghost use Rattle.params.specs.Sets.{good};
ghost use Rattle.params.specs.Sizes.{signature_length};
ghost use Rattle.wire.specs.Layout.{vector_check_at, scanned, vectors_of, Faulty};
ghost use Rattle.wire.specs.Located.{start_of, elements_of};

pub mod layout;
pub mod locate;

use layout::Layout;
use locate::Kind;
use packing::bits::inspect;
use packing::encoding::Encoding;
use params::Set;
use refusal::Refusal;

// Where the vectors begin: behind R and σ0.
pub const VECTORS: usize = 64;

// Whether a vector of a round is lawful.
fn check_vector(layout: Layout, signature: &[u8], kind: Kind, round: usize) -> Result<(), Refusal>
    requires long { length signature.now ≡ signature_length layout.encoding.bits layout.set.set }
    requires round { round < layout.set.set.r }
    ensures { result ≡ vector_check_at layout.encoding.order layout.encoding.bits signature.now (start_of layout.encoding.bits layout.set.set kind round) (elements_of layout.set.set kind) }
{
    let encoding = layout.encoding;
    let k = layout.elements(kind);
    let at = layout.start(kind, round);
    let end = at + layout.width(kind);
    inspect(encoding, k, &signature[at..end]).map_err(|fault| fault.in_signature(encoding, at, k))
}

// Looks at every vector of every round, in the order in which they lie.
fn scan(layout: Layout, signature: &[u8]) -> Result<(), Refusal>
    requires { length signature.now ≡ signature_length layout.encoding.bits layout.set.set }
    ensures { result ≡ scanned layout.encoding.order layout.encoding.bits layout.set.set signature.now }
{
    for i in 0..layout.set.set.r {
        check_vector(layout, signature, Kind::T1, i)?;
        check_vector(layout, signature, Kind::E1, i)?;
    }
    for j in 0..layout.set.set.r {
        check_vector(layout, signature, Kind::Response, j)?;
    }
    Ok(())
}

// The check that verification makes of a signature's form: its set, its length, and each vector of each round.
pub fn check_vectors(encoding: Encoding, set: Set, signature: &[u8]) -> Result<(), Refusal>
    ensures answer { result ≡ vectors_of encoding.order encoding.bits set signature.now }
    ensures judged { good set ≡ true → length signature.now ≡ signature_length encoding.bits set → Judges (Faulty encoding.order encoding.bits set signature.now) result }
{
    let set = set.check()?;
    if signature.len() != set.signature_len(encoding) {
        return Err(Refusal::SignatureLength);
    }
    scan(Layout { set, encoding }, signature)
}

#[cfg(test)]
mod tests;
