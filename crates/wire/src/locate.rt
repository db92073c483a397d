// Which vector of a signature holds a byte.
ghost use Rattle.std.specs.Prelude.{◌≡◌, ◌≤◌, ◌<◌, Some};
ghost use Rattle.wire.specs.Layout.{response_at};
ghost use Rattle.wire.specs.Located.{Locates, start_of, elements_of, name_of};

use crate::VECTORS;
use crate::layout::Layout;
use packing::encoding::Encoding;
use params::Set;
use std::fmt;

// The three vectors of a round, by the letters of the scheme.
#[derive(Clone, Copy, PartialEq, Eq, Debug)]
pub enum Kind {
    T1,
    E1,
    Response,
}

impl fmt::Display for Kind {
    ghost output = { λ kind. Some (name_of kind) };

    fn fmt<W: fmt::Write>(&self, f: &mut fmt::Formatter<W>) -> fmt::Result {
        f.write_str(match self {
            Kind::T1 => "t1",
            Kind::E1 => "e1",
            Kind::Response => "response",
        })
    }
}

// A vector of a signature: its round, which of the round's it is, its first byte and its elements.
#[derive(Clone, Copy, PartialEq, Eq, Debug)]
pub struct Vector {
    pub round: usize,
    pub kind: Kind,
    pub at: usize,
    pub elements: usize,
}

impl Layout {
    // A vector of a round.
    fn vector(self, kind: Kind, round: usize) -> Vector
        requires { round < self.set.set.r }
        ensures round { result.round ≡ round }
        ensures kind { result.kind ≡ kind }
        ensures at { result.at ≡ start_of self.encoding.bits self.set.set kind round }
        ensures elements { result.elements ≡ elements_of self.set.set kind }
    {
        Vector {
            round,
            kind,
            at: self.start(kind, round),
            elements: self.elements(kind),
        }
    }

    // The vector that holds byte `place`, which is none of R and σ0.
    fn find(self, place: usize) -> Option<Vector>
        requires { 64 ≤ place }
        ensures { Locates self.encoding.bits self.set.set place result }
    {
        let of_n = self.encoding.width(self.set.set.n);
        let both = of_n + self.encoding.width(self.set.set.m);
        let behind = place - VECTORS;
        let round = behind / both;
        if round >= self.set.set.r {
            return self.find_response(place);
        }
        if behind % both < of_n {
            return Some(self.vector(Kind::T1, round));
        }
        Some(self.vector(Kind::E1, round))
    }

    // The response that holds byte `place`, which lies behind t1 and e1 of all rounds.
    fn find_response(self, place: usize) -> Option<Vector>
        requires { response_at self.encoding.bits self.set.set 0 ≤ place }
        ensures { Locates self.encoding.bits self.set.set place result }
    {
        let round = (place - self.start(Kind::Response, 0)) / self.width(Kind::Response);
        if round < self.set.set.r {
            Some(self.vector(Kind::Response, round))
        } else {
            None
        }
    }
}

// The vector that holds byte `place` of a signature; none where no vector does, or the set is not lawful.
pub fn vector_at(encoding: Encoding, set: Set, place: usize) -> Option<Vector>
    ensures { Locates encoding.bits set place result }
{
    let set = set.check().ok()?;
    if place < VECTORS {
        return None;
    }
    Layout { set, encoding }.find(place)
}
