// The suites by their names and their numbers.
ghost use Rattle.std.specs.Prelude.{◌≡◌, Some, codes};
ghost use Rattle.suites.specs.Names.{IsSuiteNamed, numbered};

use crate::Named;
use std::error::Error;
use std::fmt;
use std::str::FromStr;

// No suite has the name or the number.
#[derive(Clone, Copy, PartialEq, Eq, Debug)]
pub struct UnknownSuite;

impl fmt::Display for UnknownSuite {
    ghost output = { λ _. Some (codes "no such suite") };

    fn fmt<W: fmt::Write>(&self, f: &mut fmt::Formatter<W>) -> fmt::Result {
        f.write_str("no such suite")
    }
}

impl Error for UnknownSuite {}

// The suite of a name on the command line.
impl FromStr for Named {
    type Err = UnknownSuite;

    ghost from_str_gives = { IsSuiteNamed };

    fn from_str(name: &str) -> Result<Named, UnknownSuite> {
        match name {
            "bench" => Ok(Named::Bench),
            "keccak" => Ok(Named::Keccak),
            _ => Err(UnknownSuite),
        }
    }
}

// The suite of a number, as a bundle's header has it.
impl TryFrom<u32> for Named {
    type Error = UnknownSuite;

    ghost try_from_gives = { λ number r. r ≡ numbered number };

    fn try_from(number: u32) -> Result<Named, UnknownSuite> {
        match number {
            0 => Ok(Named::Bench),
            1 => Ok(Named::Keccak),
            _ => Err(UnknownSuite),
        }
    }
}
