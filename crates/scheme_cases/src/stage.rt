// A key, a message and an honest signature of the second signer, to try changes on.
use crate::Cases;
use crate::kit::{Room, Scheme};
use params::Set;
use second::manner::Manner;
use second::trouble::Trouble;
use std::alloc::{AllocError, Global};
use std::io;
use std::iter::successors;
use suites::Named;
use tally::Told;

#[derive(Drop)]
pub struct Stage {
    pub scheme: Scheme<Named>,
    pub secret: Vec<u8>,
    pub key: Vec<u8>,
    pub message: Vec<u8>,
    pub sig: Vec<u8>,
}

// `len` bytes: start, start + step, and so on.
pub fn pattern(heap: Global, start: u8, step: u8, len: usize) -> Result<Vec<u8>, AllocError> {
    successors(Some(start), |x| Some(x.wrapping_add(step)))
        .take(len)
        .collect(heap)
}

impl Stage {
    pub fn new(
        heap: Global,
        suite: Named,
        set: Set,
        secret: Vec<u8>,
        message: Vec<u8>,
    ) -> io::Result<Stage> {
        let scheme = Scheme { suite, set };
        let second = scheme.second(heap);
        let key = second.public_key(secret.as_slice())?;
        let sig = second.sign(secret.as_slice(), message.as_slice(), Manner::Honest)?;
        Ok(Stage {
            scheme,
            secret,
            key,
            message,
            sig,
        })
    }

    // A stage whose secret key and message are patterns.
    pub fn of_patterns(
        heap: Global,
        suite: Named,
        set: Set,
        start: u8,
        length: usize,
    ) -> io::Result<Stage> {
        let secret = pattern(heap, start, 5, 64)?;
        let message = pattern(heap, start, 3, length)?;
        Stage::new(heap, suite, set, secret, message)
    }

    // What verification tells of a signature here, counted against the second signer's verdict.
    pub fn told(&self, tally: &mut Cases<'_>, name: &str, sig: &[u8]) -> io::Result<Told> {
        let heap = tally.rt.alloc();
        let key = self.key.as_slice();
        let message = self.message.as_slice();
        let room = Room::of(self.scheme.set);
        let got = self.scheme.verify_in(heap, room, key, message, sig)?;
        let want = self.scheme.judged(heap, key, message, sig)?;
        self.count(tally, name, got == want)?;
        Ok(got)
    }

    // The same, for what is known.
    pub fn expect(
        &self,
        tally: &mut Cases<'_>,
        name: &str,
        sig: &[u8],
        want: Told,
    ) -> io::Result<()> {
        let got = self.told(tally, name, sig)?;
        self.count(tally, name, got == want)
    }

    // Counts a case of this stage's set.
    pub fn count(&self, tally: &mut Cases<'_>, name: &str, good: bool) -> io::Result<()> {
        tally.count_at(name, self.scheme.set, good)
    }

    // What a signer of that manner makes here.
    pub fn sign_as(&self, heap: Global, manner: Manner) -> Result<Vec<u8>, Trouble> {
        self.scheme
            .second(heap)
            .sign(self.secret.as_slice(), self.message.as_slice(), manner)
    }
}
