// The command `demo`: a message from its key to the verdict on its signature, and the verdict on a damaged twin.
use crate::failure::Failure;
use crate::files::read;
use crate::session::{Session, wipe_after};
use field::Field;
use gf31::Gf31;
use report::compare::differing;
use report::scan::scan;
use scheme::sizes::MESSAGE_LIMIT;

// A public key and a signature.
#[derive(Drop)]
struct Made {
    key: Vec<u8>,
    signature: Vec<u8>,
}

impl Session<'_> {
    // Makes the public key and signs, and says both.
    fn show_making<'p>(&self, message: &[u8], secret_key: &[u8]) -> Result<Made, Failure<'p>> {
        let key = self.make(secret_key)?;
        self.say_made(key.as_slice())?;
        let signature = self.sign_message(message, secret_key)?;
        self.say_signed(message, signature.as_slice())?;
        Ok(Made { key, signature })
    }

    // Reads the signature's vectors, verifies it and its twin, and says what it found: the one is to be accepted, the other refused.
    fn show_verdicts<'p>(
        &self,
        message: &[u8],
        made: &Made,
        twin: &[u8],
    ) -> Result<(), Failure<'p>> {
        let key = made.key.as_slice();
        let signature = made.signature.as_slice();
        println!(self.rt; "{}", scan(self.set, signature))?;
        self.accept(message, key, signature)?;
        println!(self.rt;
            "its twin has {} bytes and differs at {}",
            twin.len(),
            differing(signature, twin)
        )?;
        match self.accept(message, key, twin) {
            Ok(()) => Err(Failure::Told),
            Err(failure) => Ok(failure.say(self.rt)?),
        }
    }

    pub fn demo<'p>(
        &self,
        secret: &'p str,
        text: &'p str,
        path: &'p str,
    ) -> Result<(), Failure<'p>> {
        let good = self.set.check()?;
        let message = read(self.rt, text, MESSAGE_LIMIT)?;
        let twin = read(self.rt, path, good.signature_len(Gf31::encoding()))?;
        let mut secret_key = read(self.rt, secret, 64)?;
        let made = wipe_after(secret_key.as_mut_slice(), |bytes| {
            self.show_making(message.as_slice(), bytes)
        })?;
        self.show_verdicts(message.as_slice(), &made, twin.as_slice())
    }
}
