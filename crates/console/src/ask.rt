// The commands `digest` and `stream`: what a named suite answers.
ghost use Rattle.std.specs.Prelude.{◌≡◌, [], Ok, Err};
ghost use Rattle.suite.specs.Calls.{digest_of};
ghost use Rattle.suites.specs.Named.{meaning_of};

use crate::failure::Failure;
use crate::files::read;
use refusal::Refusal;
use report::hex::Hex;
use suite::{DIGEST_LIMIT, STREAM_LIMIT, Suite};
use suites::Named;

// A refusal by a suite that was asked alone: its line is all that is said. A type of its own: `map_err(Failure::Suite)` gets no proof,
// as its result names a lifetime that no argument of it has.
#[derive(Clone, Copy)]
struct Unanswered(Refusal);

impl From<Unanswered> for Failure<'_> {
    fn from(unanswered: Unanswered) -> Self {
        Failure::Suite(unanswered.0)
    }
}

// d(label, bytes).
pub fn digest(suite: Named, label: u8, bytes: &[u8]) -> Result<[u8; 32], Refusal>
    ensures { result ≡ digest_of (meaning_of suite) label bytes.now [] }
{
    let mut out = [0u8; 32];
    suite.digest(label, bytes, &[], &mut out)?;
    Ok(out)
}

pub(crate) fn run_digest<'a>(
    rt: &HostRuntime,
    suite: Named,
    label: u8,
    path: &'a str,
) -> Result<(), Failure<'a>> {
    let bytes = read(rt, path, DIGEST_LIMIT)?;
    let out = digest(suite, label, bytes.as_slice()).map_err(Unanswered)?;
    println!(rt; "{}", Hex(&out))?;
    Ok(())
}

pub(crate) fn run_stream<'a>(
    rt: &HostRuntime,
    suite: Named,
    label: u8,
    path: &'a str,
    count: usize,
) -> Result<(), Failure<'a>> {
    let bytes = read(rt, path, 32)?;
    let seed = <[u8; 32]>::try_from(bytes.as_slice()).map_err(|_| Failure::NoSeed(path))?;
    // one byte past the limit is refused like any longer buffer
    let size = count.min(STREAM_LIMIT + 1);
    let mut out = vec![in rt.alloc(); 0u8; size]?;
    suite
        .stream(label, &seed, out.as_mut_slice())
        .map_err(Unanswered)?;
    println!(rt; "{}", Hex(out.as_slice()))?;
    Ok(())
}
