// Why a command says no: what it refuses, the words that are wrong, the files that fail.
use crate::command::USAGE;
use params::Set;
use refusal::Refusal;
use report::scan::{Spot, spot_of};
use report::words::Words;
use std::alloc::AllocError;
use std::{fmt, io};

// What ends a command before it says yes, with what it was given on the command line.
#[derive(Drop)]
pub(crate) enum Failure<'a> {
    Usage,
    NoSuite(&'a str),
    NoLabel(&'a str),
    NoCount(&'a str),
    // of a file that has not 32 bytes
    NoSeed(&'a str),
    File {
        path: &'a str,
        error: io::Error,
    },
    // of a file that is no signature of the set
    Length {
        path: &'a str,
        found: usize,
        wanted: usize,
    },
    // by a suite that was asked alone: its line is all that is said
    Suite(Refusal),
    Refused(Refusal),
    // of a signature, for the vector that it is for
    Vector(Refusal, Spot),
    // by what the command has already printed
    Told,
    // of printing or memory: the program ends with the error
    Broken(io::Error),
}

impl Failure<'_> {
    // A refusal of a signature, with the vector that it is for if there is one.
    pub fn of_signature<'a>(set: Set, signature: &[u8], refusal: Refusal) -> Failure<'a> {
        match spot_of(set, signature, refusal) {
            Some(spot) => Failure::Vector(refusal, spot),
            None => Failure::Refused(refusal),
        }
    }

    // Says it: what is refused on standard output, what is wrong with words and files on standard error.
    pub fn say(self, rt: &HostRuntime) -> io::Result<()> {
        match self {
            Failure::Broken(error) => Err(error),
            Failure::Told => Ok(()),
            Failure::Suite(_) | Failure::Refused(_) | Failure::Vector(_, _) => println!(rt;
                "{self}"
            ),
            _ => eprintln!(rt; "{self}"),
        }
    }
}

impl From<Refusal> for Failure<'_> {
    fn from(refusal: Refusal) -> Self {
        Failure::Refused(refusal)
    }
}

impl From<io::Error> for Failure<'_> {
    fn from(error: io::Error) -> Self {
        Failure::Broken(error)
    }
}

impl From<AllocError> for Failure<'_> {
    fn from(error: AllocError) -> Self {
        Failure::Broken(error.into())
    }
}

impl fmt::Display for Failure<'_> {
    fn fmt<W: fmt::Write>(&self, f: &mut fmt::Formatter<W>) -> fmt::Result {
        match self {
            Failure::Usage => write!(f, "{USAGE}"),
            Failure::NoSuite(name) => write!(f, "mqdss: no suite is named {name}: bench or keccak"),
            Failure::NoLabel(label) => write!(f, "mqdss: a label is 0 to 255, not {label}"),
            Failure::NoCount(count) => write!(f, "mqdss: a count is a decimal number, not {count}"),
            Failure::NoSeed(path) => write!(f, "mqdss: {path}: a seed has 32 bytes"),
            Failure::File { path, error } => write!(f, "mqdss: {path}: {error}"),
            Failure::Length {
                path,
                found,
                wanted,
            } => {
                if found > wanted {
                    write!(
                        f,
                        "mqdss: {path}: too long, a signature of this set has {wanted} bytes"
                    )
                } else {
                    write!(
                        f,
                        "mqdss: {path}: {found} bytes, a signature of this set has {wanted}"
                    )
                }
            }
            Failure::Suite(refusal) => write!(f, "{refusal}"),
            Failure::Refused(refusal) => write!(f, "{refusal}\n{}", Words(*refusal)),
            Failure::Vector(refusal, spot) => write!(f, "{refusal}\n{spot}"),
            Failure::Told => Ok(()),
            Failure::Broken(error) => write!(f, "{error}"),
        }
    }
}
