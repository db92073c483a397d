// The Keccak suite: SHA3-256 and SHAKE128 of FIPS 202, each of the label and then what it is asked.
#![tactic(auto)]

ghost use Rattle.suite_keccak.specs.Hashes.{keccak_meaning};
ghost use Rattle.suite_keccak.specs.Laws.{keccak_lawful};

use sha3::{sha3_256_parts, shake128_labelled};
use suite::WithinLimits;

#[derive(Clone, Copy)]
pub struct Keccak;

impl WithinLimits for Keccak {
    ghost meaning = { λ _. keccak_meaning };

    ghost lawful = { λ s. keccak_lawful };

    fn digest_within(&self, label: u8, head: &[u8], tail: &[u8]) -> [u8; 32] {
        sha3_256_parts(label, head, tail)
    }

    #[tactic(auto, using(sha3::proofs::Laws::shake128_by_bytes))]
    fn stream_within(&self, label: u8, seed: &[u8; 32], out: &mut [u8]) {
        shake128_labelled(label, seed, out);
    }
}
