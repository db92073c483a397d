// Refusals in words, for people.
use refusal::Refusal;
use std::fmt;

#[derive(Clone, Copy)]
pub struct Words(pub Refusal);

impl fmt::Display for Words {
    fn fmt<W: fmt::Write>(&self, f: &mut fmt::Formatter<W>) -> fmt::Result {
        match self.0 {
            Refusal::BadSet => write!(f, "n and m are 1 to 64, and r is 1 to 269"),
            Refusal::MessageTooLong => write!(f, "the message has more than 65536 bytes"),
            Refusal::BufferLength { layer: _, buffer } => write!(
                f,
                "the {buffer} buffer has a wrong length"
            ),
            Refusal::WatchFull => write!(f, "all slots of the watch are used"),
            Refusal::SlotNotUsed => write!(f, "the slot is not used"),
            Refusal::ChallengeOutOfRange => write!(f, "the challenge is out of range"),
            Refusal::KeyLength => write!(f, "the key has a wrong length"),
            Refusal::KeyElement { index } => write!(
                f,
                "the key is wrong at element {index}, past the last for the pad"
            ),
            Refusal::SignatureLength => write!(f, "the signature has a wrong length"),
            Refusal::Element { place } => write!(f, "an element that begins in byte {place} is 31"),
            Refusal::Pad { place } => write!(f, "the pad in byte {place} is not zero"),
            Refusal::NotAccepted => write!(f, "the signature is not accepted"),
            Refusal::BundleHeader { place } => write!(
                f,
                "the header of the bundle is wrong at byte {place}"
            ),
            Refusal::BundleLayout { item } => write!(
                f,
                "the layout of the bundle is wrong at item {item}"
            ),
            Refusal::BundleItem { item } => write!(f, "item {item} of the bundle is refused"),
            Refusal::SuiteLimit { label } => write!(
                f,
                "the suite was asked for too much, with label {label}"
            ),
            Refusal::TooFewElements { label } => write!(
                f,
                "too few elements can be drawn with label {label}"
            ),
            Refusal::OutOfTurn { layer: _ } => write!(f, "the call is out of turn"),
        }
    }
}
