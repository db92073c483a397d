// Why a signature is not accepted.
use crate::trouble::Trouble;

// Apart from the kit's `Refusal`, so that a verdict is come to with no type of the kit's but a suite's refusal.
#[derive(Clone, Copy, PartialEq, Eq, Debug)]
pub enum Refused {
    BadSet,
    MessageTooLong,
    KeyLength,
    // the first element that is 31, or m where only the pad is wrong
    KeyElement { index: usize },
    SignatureLength,
    // the byte that holds the lowest bit of the element
    Element { place: usize },
    // the last byte of the vector
    Pad { place: usize },
    Wrong,
    // a drawing that falls short, or no verdict at all
    Trouble(Trouble),
}

impl From<Trouble> for Refused {
    fn from(e: Trouble) -> Refused {
        Refused::Trouble(e)
    }
}
