// Where the vectors of a signature lie.
ghost use Rattle.std.specs.Prelude.{◌≡◌, ◌+◌, ◌*◌, ◌≤◌};
ghost use Rattle.packing.specs.Packed.{width as width_of};
ghost use Rattle.wire.specs.Layout.{response_at};
ghost use Rattle.wire.specs.Located.{start_of, elements_of};

use crate::VECTORS;
use crate::locate::Kind;
use packing::encoding::Encoding;
use params::{GoodSet, Set};

// The layout of a set's signatures over a field's elements: R and σ0, then t1 and e1 of each round, then each round's response, and
// then the commitment that each round carries.
#[derive(Clone, Copy)]
pub struct Layout {
    pub set: GoodSet,
    pub encoding: Encoding,
}

impl Layout {
    // The elements of a vector.
    pub fn elements(self, kind: Kind) -> usize
        ensures value { result ≡ elements_of self.set.set kind }
        ensures some { 1 ≤ result }
        ensures few { result ≤ 64 }
    {
        match kind {
            Kind::T1 | Kind::Response => self.set.set.n,
            Kind::E1 => self.set.set.m,
        }
    }

    // The bytes of a vector.
    pub fn width(self, kind: Kind) -> usize
        ensures value { result ≡ width_of self.encoding.bits (elements_of self.set.set kind) }
        ensures few { result ≤ 64 }
    {
        self.encoding.width(self.elements(kind))
    }

    // The first byte of a vector of a round. Where a round past the last would begin, the section ends.
    pub fn start(self, kind: Kind, round: usize) -> usize
        requires { round ≤ self.set.set.r }
        ensures value { result ≡ start_of self.encoding.bits self.set.set kind round }
        ensures near { result ≤ 60320 }
    {
        let Set { n, m, r } = self.set.set;
        let of_n = self.encoding.width(n);
        let both = of_n + self.encoding.width(m);
        match kind {
            Kind::T1 => VECTORS + round * both,
            Kind::E1 => VECTORS + round * both + of_n,
            Kind::Response => VECTORS + r * both + round * of_n,
        }
    }

    // The bytes of σ1, the first answers of all rounds.
    pub fn answers_len(self) -> usize
        ensures value { result ≡ self.set.set.r * (width_of self.encoding.bits self.set.set.n + width_of self.encoding.bits self.set.set.m) }
        ensures few { result ≤ 60256 }
    {
        let Set { n, m, r } = self.set.set;
        r * (self.encoding.width(n) + self.encoding.width(m))
    }

    // The bytes of the responses of all rounds.
    pub fn responses_len(self) -> usize
        ensures value { result ≡ self.set.set.r * width_of self.encoding.bits self.set.set.n }
        ensures few { result ≤ 60256 }
    {
        self.set.set.r * self.encoding.width(self.set.set.n)
    }

    // The first byte of the commitment that a round carries.
    pub fn carried(self, round: usize) -> usize
        requires { round ≤ self.set.set.r }
        ensures { result ≡ response_at self.encoding.bits self.set.set self.set.set.r + round * 32 }
    {
        self.start(Kind::Response, self.set.set.r) + round * 32
    }
}
