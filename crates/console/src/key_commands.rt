// The commands `key` and `checkkey`: making a public key, and looking at one.
use crate::failure::Failure;
use crate::files::{read, write_whole};
use crate::session::{Session, wipe_after};
use field::Field;
use gf31::Gf31;
use keys::{SECRET, check_key, make_key};
use params::{Set, drawing_len};
use report::hex::Hex;
use std::io;
use suites::Named;

impl Session<'_> {
    // The public key of a secret key, in buffers of the set's lengths.
    pub fn make<'p>(&self, secret_key: &[u8]) -> Result<Vec<u8>, Failure<'p>> {
        let good = self.set.check()?;
        let alloc = self.rt.alloc();
        let mut map = vec![in alloc; 0u8; drawing_len(good.coefficients())]?;
        let mut secret = vec![in alloc; 0u8; SECRET]?;
        let mut key = vec![in alloc; 0u8; good.key_len(Gf31::encoding())]?;
        make_key::<Gf31, Named>(
            self.set,
            &self.suite,
            map.as_mut_slice(),
            secret.as_mut_slice(),
            secret_key,
            key.as_mut_slice(),
        )?;
        Ok(key)
    }

    // Says what was made.
    pub fn say_made(&self, key: &[u8]) -> io::Result<()> {
        let Set { n, m, r: _ } = self.set;
        println!(self.rt;
            "made a public key of {n} variables and {m} equations: {} bytes\n{}",
            key.len(),
            Hex(key)
        )
    }

    pub fn key<'p>(&self, from: &'p str, to: &'p str) -> Result<(), Failure<'p>> {
        let mut secret_key = read(self.rt, from, 64)?;
        let key = wipe_after(secret_key.as_mut_slice(), |bytes| self.make(bytes))?;
        write_whole(self.rt, to, key.as_slice())?;
        self.say_made(key.as_slice())?;
        Ok(())
    }
}

pub(crate) fn run_checkkey<'a>(
    rt: &HostRuntime,
    set: Set,
    path: &'a str,
) -> Result<(), Failure<'a>> {
    let good = set.check()?;
    let bytes = read(rt, path, good.key_len(Gf31::encoding()))?;
    check_key::<Gf31>(set, bytes.as_slice())?;
    println!(rt; "lawful")?;
    Ok(())
}
