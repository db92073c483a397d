// What can be wrong with a packed vector, and how a signature and a key refuse it.
ghost use Rattle.std.specs.Prelude.{◌≡◌, ◌+◌, ◌^◌, ◌<◌, ◌≤◌};
ghost use Rattle.packing.specs.Packed.{width, byte_of, signature_refusal_of, key_refusal_of, Within};

use crate::encoding::Encoding;
use refusal::Refusal;

#[derive(Clone, Copy)]
pub enum Fault {
    // the first element whose bits are no code
    Element(usize),
    // all elements are codes, and the bits above the last are not zero
    Pad,
}

impl Fault {
    // The refusal of a vector of `k` elements that begins at byte `at` of a signature.
    pub fn in_signature(self, encoding: Encoding, at: usize, k: usize) -> Refusal
        requires near { at + k < 2 ^ 64 }
        requires within { Within k self }
        ensures { result ≡ signature_refusal_of encoding.bits at k self }
    {
        match self {
            Fault::Element(i) => Refusal::Element {
                place: at + encoding.byte_of(i),
            },
            Fault::Pad => Refusal::Pad {
                place: at + encoding.width(k).saturating_sub(1),
            },
        }
    }

    // The refusal of a vector of `k` elements in a public key, at an element.
    pub fn in_key(self, k: usize) -> Refusal
        ensures { result ≡ key_refusal_of k self }
    {
        match self {
            Fault::Element(i) => Refusal::KeyElement { index: i },
            Fault::Pad => Refusal::KeyElement { index: k },
        }
    }
}

impl Encoding {
    // How many bytes `k` elements pack into. By eights, so that no product can pass a `usize`.
    pub fn width(self, k: usize) -> usize
        ensures value { result ≡ width self.bits k }
        ensures few { result ≤ k }
    {
        let bits = self.bits as usize;
        k / 8 * bits + (k % 8 * bits + 7) / 8
    }

    // The byte of a packed vector that holds the lowest bit of element `i`.
    pub fn byte_of(self, i: usize) -> usize
        ensures value { result ≡ byte_of self.bits i }
        ensures few { result ≤ i }
    {
        let bits = self.bits as usize;
        i / 8 * bits + i % 8 * bits / 8
    }
}
