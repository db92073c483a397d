// What is wrong with a key, a message and a signature before any digest, in the order in which it is to be told.
use crate::Params;
use crate::layout::{Fault, Span, faultless};
use crate::numbers::part;
use crate::packed::width;
use crate::refused::Refused;

impl Params {
    fn judge_set(self) -> Result<(), Refused> {
        match (self.n, self.m, self.r) {
            (1..=64, 1..=64, 1..=269) => Ok(()),
            _ => Err(Refused::BadSet),
        }
    }

    fn judge_key(self, key: &[u8]) -> Result<(), Refused> {
        if key.len() != width(self.m).saturating_add(32) {
            return Err(Refused::KeyLength);
        }
        faultless(part(key, 32, width(self.m)), self.m).map_err(|fault| match fault {
            Fault::Element { index } => Refused::KeyElement { index },
            Fault::Pad => Refused::KeyElement { index: self.m },
        })
    }

    // The first faulty vector: t1 and e1 of every round, and then the responses.
    fn judge_vectors(self, sig: &[u8]) -> Result<(), Refused> {
        for i in 0..self.r {
            let places = self.places(i);
            judge_span(sig, places.t1)?;
            judge_span(sig, places.e1)?;
        }
        for i in 0..self.r {
            judge_span(sig, self.places(i).response)?;
        }
        Ok(())
    }

    // What can be told without a suite.
    pub(crate) fn judge_shape(self, key: &[u8], message: &[u8], sig: &[u8]) -> Result<(), Refused> {
        self.judge_set()?;
        if message.len() > 65_536 {
            return Err(Refused::MessageTooLong);
        }
        self.judge_key(key)?;
        if sig.len() != self.signature_bytes() {
            return Err(Refused::SignatureLength);
        }
        self.judge_vectors(sig)
    }
}

// A fault in a vector of the signature, by its byte.
fn judge_span(sig: &[u8], span: Span) -> Result<(), Refused> {
    faultless(span.bytes(sig), span.count).map_err(|fault| match fault {
        Fault::Element { index } => Refused::Element {
            place: span.from.wrapping_add(index.wrapping_mul(5) / 8),
        },
        Fault::Pad => Refused::Pad {
            place: span.from.wrapping_add(width(span.count)).wrapping_sub(1),
        },
    })
}
