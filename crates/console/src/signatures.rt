// The commands `sign` and `verify`.
use crate::failure::Failure;
use crate::files::{read, write_whole};
use crate::session::{Session, wipe_after};
use field::Field;
use gf31::Gf31;
use keys::SECRET;
use params::drawing_len;
use scheme::sizes::MESSAGE_LIMIT;
use signing::sign;
use std::io;
use suites::Named;
use verification::verify;

impl Session<'_> {
    // The signature of a message, in buffers of the set's lengths.
    pub fn sign_message<'p>(
        &self,
        message: &[u8],
        secret_key: &[u8],
    ) -> Result<Vec<u8>, Failure<'p>> {
        let good = self.set.check()?;
        let alloc = self.rt.alloc();
        let mut map = vec![in alloc; 0u8; drawing_len(good.coefficients())]?;
        let mut list = vec![in alloc; 0u8; self.set.r.saturating_mul(64)]?;
        let mut secret = vec![in alloc; 0u8; SECRET]?;
        let mut signature = vec![in alloc; 0u8; good.signature_len(Gf31::encoding())]?;
        sign::<Gf31, Named>(
            self.set,
            &self.suite,
            message,
            map.as_mut_slice(),
            list.as_mut_slice(),
            secret.as_mut_slice(),
            secret_key,
            signature.as_mut_slice(),
        )?;
        Ok(signature)
    }

    // Verifies a signature, in buffers of the set's lengths, and says `accepted`.
    pub fn accept<'p>(
        &self,
        message: &[u8],
        key: &[u8],
        signature: &[u8],
    ) -> Result<(), Failure<'p>> {
        let good = self.set.check()?;
        let alloc = self.rt.alloc();
        let mut map = vec![in alloc; 0u8; drawing_len(good.coefficients())]?;
        let mut list = vec![in alloc; 0u8; self.set.r.saturating_mul(64)]?;
        verify::<Gf31, Named>(
            self.set,
            &self.suite,
            message,
            map.as_mut_slice(),
            list.as_mut_slice(),
            key,
            signature,
        )
        .map_err(|refusal| Failure::of_signature(self.set, signature, refusal))?;
        println!(self.rt; "accepted")?;
        Ok(())
    }

    // Says what was signed.
    pub fn say_signed(&self, message: &[u8], signature: &[u8]) -> io::Result<()> {
        println!(self.rt;
            "signed a message of {} bytes in {} rounds: {} bytes",
            message.len(),
            self.set.r,
            signature.len()
        )
    }

    pub fn sign<'p>(&self, secret: &'p str, text: &'p str, to: &'p str) -> Result<(), Failure<'p>> {
        let message = read(self.rt, text, MESSAGE_LIMIT)?;
        let mut secret_key = read(self.rt, secret, 64)?;
        let signature = wipe_after(secret_key.as_mut_slice(), |bytes| {
            self.sign_message(message.as_slice(), bytes)
        })?;
        write_whole(self.rt, to, signature.as_slice())?;
        self.say_signed(message.as_slice(), signature.as_slice())?;
        Ok(())
    }

    pub fn verify<'p>(
        &self,
        from: &'p str,
        text: &'p str,
        path: &'p str,
    ) -> Result<(), Failure<'p>> {
        let good = self.set.check()?;
        let key = read(self.rt, from, good.key_len(Gf31::encoding()))?;
        let message = read(self.rt, text, MESSAGE_LIMIT)?;
        let signature = read(self.rt, path, good.signature_len(Gf31::encoding()))?;
        self.accept(message.as_slice(), key.as_slice(), signature.as_slice())
    }
}
