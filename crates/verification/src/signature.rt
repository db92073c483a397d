// A signature whose form was checked, and its parts.
ghost use Rattle.std.specs.Prelude.{◌≡◌, ◌<◌, length, Ok, IfOk};
ghost use Rattle.std.proofs.Props.{props};
ghost use Rattle.refusal.specs.Outcome.{told};
ghost use Rattle.field.specs.Codes.{Vector};
ghost use Rattle.packing.specs.Packed.{width, elements};
ghost use Rattle.params.specs.Sizes.{signature_length};
ghost use Rattle.wire.specs.Layout.{part, scanned, vectors_of};
ghost use Rattle.wire.specs.Located.{start_of, elements_of};
ghost use Rattle.scheme.specs.Verifying.{R_in, σ0_in, σ1_in};

use field::Field;
use params::GoodSet;
use refusal::Refusal;
use std::marker::PhantomData;
use vectors::packed::load;
use wire::layout::Layout;
use wire::locate::Kind;
use wire::{VECTORS, check_vectors};

// The bytes of a vector of a round. A round's number is a plain index: a type for it would have to carry the set that it counts in.
fn packed(layout: Layout, bytes: &[u8], kind: Kind, round: usize) -> &[u8]
    requires long { length bytes.now ≡ signature_length layout.encoding.bits layout.set.set }
    requires round { round < layout.set.set.r }
    ensures value { result.now ≡ part bytes.now (start_of layout.encoding.bits layout.set.set kind round) (width layout.encoding.bits (elements_of layout.set.set kind)) }
    ensures long { length result.now ≡ width layout.encoding.bits (elements_of layout.set.set kind) }
{
    let at = layout.start(kind, round);
    let end = at + layout.width(kind);
    &bytes[at..end]
}

// As long as the set's signatures, with every vector of every round lawful.
#[derive(Drop)]
pub struct Signature<'a, F: Field> {
    pub set: GoodSet,
    pub bytes: &'a [u8],
    of: PhantomData<F>,
    pub ghost long: { length bytes.now ≡ signature_length F.Field.coding.bits set.set },
    pub ghost lawful: { scanned F.Field.coding.q F.Field.coding.bits set.set bytes.now ≡ Ok tt } by { Prim.hlevel props },
}

impl<'a, F: Field> Signature<'a, F> {
    pub fn check(set: GoodSet, bytes: &'a [u8]) -> Result<Signature<'a, F>, Refusal>
        ensures answer { told result ≡ vectors_of F.Field.coding.q F.Field.coding.bits set.set bytes.now }
        ensures set { IfOk result (λ signature. signature.set ≡ set) }
        ensures bytes { IfOk result (λ signature. signature.bytes.now ≡ bytes.now) }
    {
        check_vectors(F::encoding(), set.set, bytes)?;
        Ok(Signature {
            set,
            bytes,
            of: PhantomData,
        })
    }

    pub fn layout(&self) -> Layout
        ensures set { result.set ≡ self.now.set }
        ensures bits { result.encoding.bits ≡ F.Field.coding.bits }
    {
        Layout {
            set: self.set,
            encoding: F::encoding(),
        }
    }

    // R.
    pub fn randomizer(&self) -> &'a [u8; 32]
        ensures { result.now ≡ R_in self.now.bytes.now }
    {
        self.bytes.first_chunk::<32>().unwrap()
    }

    // σ0.
    pub fn base(&self) -> &'a [u8; 32]
        ensures { result.now ≡ σ0_in self.now.bytes.now }
    {
        self.bytes[32..].first_chunk::<32>().unwrap()
    }

    // σ1, the first answers of all rounds.
    pub fn answers(&self) -> &'a [u8]
        ensures { result.now ≡ σ1_in F.Field.coding.bits self.now.set.set self.now.bytes.now }
    {
        &self.bytes[VECTORS..VECTORS + self.layout().answers_len()]
    }

    // Unpacks a vector of a round.
    pub fn load(&self, kind: Kind, round: usize, out: &mut [u8])
        requires round { round < self.now.set.set.r }
        requires out { length out.old ≡ elements_of self.now.set.set kind }
        ensures value { out.new ≡ elements F.Field.coding.bits (elements_of self.now.set.set kind) (part self.now.bytes.now (start_of F.Field.coding.bits self.now.set.set kind round) (width F.Field.coding.bits (elements_of self.now.set.set kind))) }
        ensures codes { Vector F.Field.coding.q (elements_of self.now.set.set kind) out.new }
    {
        load::<F>(packed(self.layout(), self.bytes, kind, round), out);
    }
}
