// The largest set, once: the sample slot map under the sample's secret key.
use crate::Cases;
use crate::pairs::compare;
use crate::stage::{Stage, pattern};
use params::MQDSS_31_64;
use sha3::sha3_256;
use std::io;
use suites::Named;

const SLOT_MAP: &str = "terminal 7, row 12, 2026-11-17 06:00
bay slot tier container
 01  01   1   BSCU3058219
 01  01   2   BSCU1174406
 01  02   1   KLTU9920154
 02  01   1   BSCU6640873
 02  03   1   VRNU2205518
 02  03   2   KLTU7713096
 02  03   3   BSCU4481932
 03  02   1   VRNU8030277
";

// SHA3-256 of the sample's signature.
const SAMPLE: [u8; 32] = [
    0x47, 0x6e, 0xbe, 0xfc, 0x61, 0x61, 0xfc, 0x0f, 0x19, 0x01, 0x06, 0x7c, 0x24, 0xc4, 0x41, 0xdb,
    0xf6, 0x18, 0xa7, 0x23, 0xd8, 0x31, 0x34, 0x7e, 0xde, 0xaf, 0xbd, 0xa5, 0x74, 0xa7, 0x31, 0xc6,
];

pub fn run_sample(tally: &mut Cases<'_>) -> io::Result<()> {
    let heap = tally.rt.alloc();
    let secret = pattern(heap, 0, 1, 64)?;
    let message = Vec::from_slice(heap, SLOT_MAP.as_bytes())?;
    let stage = Stage::new(heap, Named::Keccak, MQDSS_31_64, secret, message)?;
    let digest = sha3_256(stage.sig.as_slice());
    let name = "the sample: the second signer's signature";
    tally.count(name, digest == SAMPLE)?;
    compare(tally, &stage)
}
