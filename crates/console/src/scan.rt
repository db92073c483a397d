// The command `scan`.
use crate::failure::Failure;
use crate::files::read;
use field::Field;
use gf31::Gf31;
use params::Set;
use refusal::Refusal;
use report::scan::scan;

// Reads a signature from a file and says what it found. A file of another length than a signature's gets the line of its
// refusal, and the reason on standard error.
pub(crate) fn run_scan<'a>(rt: &HostRuntime, set: Set, path: &'a str) -> Result<(), Failure<'a>> {
    let good = set.check()?;
    let wanted = good.signature_len(Gf31::encoding());
    let bytes = read(rt, path, wanted)?;
    let report = scan(set, bytes.as_slice());
    println!(rt; "{report}")?;
    let found = bytes.len();
    report.verdict.map_err(|refusal| match refusal {
        Refusal::SignatureLength => Failure::Length {
            path,
            found,
            wanted,
        },
        _ => Failure::Told,
    })
}
