// Where the parts of a signature stand, and the first fault of a packed vector.
use crate::Params;
use crate::numbers::part;
use crate::packed::{first_31, pad_is_set, width};

// A packed vector: where it begins, and how many elements it has. Apart from the kit's places, which are worked out otherwise.
#[derive(Clone, Copy)]
pub struct Span {
    pub from: usize,
    pub count: usize,
}

// The vectors of a round, and where its carried commitment begins.
#[derive(Clone, Copy)]
pub struct Places {
    pub t1: Span,
    pub e1: Span,
    pub response: Span,
    pub other: usize,
}

// What is wrong with a packed vector. Apart from the kit's refusals, which name the place too.
#[derive(Clone, Copy)]
pub enum Fault {
    Element { index: usize },
    Pad,
}

impl Params {
    // The bytes of σ1.
    pub(crate) fn first_bytes(self) -> usize {
        self.r
            .wrapping_mul(width(self.n).wrapping_add(width(self.m)))
    }

    pub(crate) fn places(self, i: usize) -> Places {
        let n = width(self.n);
        let t1 = i
            .wrapping_mul(n.wrapping_add(width(self.m)))
            .wrapping_add(64);
        let responses = self.first_bytes().wrapping_add(64);
        let others = responses.wrapping_add(self.r.wrapping_mul(n));
        Places {
            t1: Span {
                from: t1,
                count: self.n,
            },
            e1: Span {
                from: t1.wrapping_add(n),
                count: self.m,
            },
            response: Span {
                from: responses.wrapping_add(i.wrapping_mul(n)),
                count: self.n,
            },
            other: others.wrapping_add(i.wrapping_mul(32)),
        }
    }

    // The bytes of a signature: all up to where a round past the last would carry its commitment.
    pub(crate) fn signature_bytes(self) -> usize {
        self.places(self.r).other
    }
}

impl Span {
    pub(crate) fn bytes(self, sig: &[u8]) -> &[u8] {
        part(sig, self.from, width(self.count))
    }
}

// The first fault of `count` packed elements.
pub fn faultless(bytes: &[u8], count: usize) -> Result<(), Fault> {
    if let Some(index) = first_31(bytes, count) {
        Err(Fault::Element { index })
    } else if pad_is_set(bytes, count) {
        Err(Fault::Pad)
    } else {
        Ok(())
    }
}
