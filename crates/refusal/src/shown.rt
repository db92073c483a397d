// What a program prints: of a refusal the word `refused` and its three numbers in decimal, of a buffer its name.
ghost use Rattle.std.specs.Prelude.{Some};
ghost use Rattle.refusal.specs.Line.{line, name_of};

use crate::{Buffer, Refusal};
use std::fmt;

impl fmt::Display for Refusal {
    ghost output = { λ r. Some (line r) };

    fn fmt<W: fmt::Write>(&self, f: &mut fmt::Formatter<W>) -> fmt::Result {
        let (number, layer, place) = self.numbers();
        write!(f, "refused {number} {layer} {place}")
    }
}

impl fmt::Display for Buffer {
    ghost output = { λ buffer. Some (name_of buffer) };

    fn fmt<W: fmt::Write>(&self, f: &mut fmt::Formatter<W>) -> fmt::Result {
        f.write_str(match self {
            Buffer::Map => "map",
            Buffer::List => "list",
            Buffer::Secret => "secret",
            Buffer::Answer => "answer",
            Buffer::Store => "store",
        })
    }
}
