// Why nothing was worked out.
use refusal::Refusal;
use std::alloc::{AllocError, AllocFailed};
use std::io;

#[derive(Clone, Copy, PartialEq, Eq, Debug)]
pub enum Trouble {
    Memory,
    // a secret key that has not 64 bytes
    SecretKey,
    // a drawing that falls short
    Few { label: u8 },
    // a suite that refuses
    Suite(Refusal),
}

impl From<AllocError> for Trouble {
    fn from(_e: AllocError) -> Trouble {
        Trouble::Memory
    }
}

impl<T: Drop> From<AllocFailed<T>> for Trouble {
    fn from(_e: AllocFailed<T>) -> Trouble {
        Trouble::Memory
    }
}

impl From<Refusal> for Trouble {
    fn from(e: Refusal) -> Trouble {
        Trouble::Suite(e)
    }
}

impl From<Trouble> for io::Error {
    fn from(_e: Trouble) -> io::Error {
        io::Error::from(io::ErrorKind::Other)
    }
}
