// What a suite promises: a digest and a stream, each a fixed function of what it is asked.
#![tactic(auto)]

ghost use Rattle.std.specs.Prelude.{◌≡◌, ◌+◌, ◌≤◌, ◌++◌, length};
ghost use Rattle.refusal.specs.Outcome.{told, written};
ghost use Rattle.suite.specs.Meaning.{Meaning, Lawful};
ghost use Rattle.suite.specs.Calls.{first, digest_of, stream_of};

pub mod drawing;

use refusal::Refusal;

// The most bytes that a digest takes, head and tail together.
pub const DIGEST_LIMIT: usize = 131_072;

// The most bytes that a stream gives.
pub const STREAM_LIMIT: usize = 262_144;

// A suite writes `digest` and `stream`. It may write `WithinLimits` in their place, which brings them.
pub trait Suite {
    // the two functions; being asked changes nothing in a suite
    ghost meaning: { Self → Meaning };

    // Writes d(label, head ‖ tail); refused exactly where head and tail together pass 131,072 bytes.
    fn digest(&self, label: u8, head: &[u8], tail: &[u8], out: &mut [u8; 32]) -> Result<(), Refusal>
        ensures answer { result ≡ told (digest_of (meaning self.now) label head.now tail.now) }
        ensures bytes { out.new ≡ written 32 (digest_of (meaning self.now) label head.now tail.now) };

    // Fills `out` with bytes 0, 1, 2 and on of the stream; refused exactly where `out` passes 262,144 bytes.
    fn stream(&self, label: u8, seed: &[u8; 32], out: &mut [u8]) -> Result<(), Refusal>
        ensures answer { result ≡ told (stream_of (meaning self.now) label seed.now (length out.old)) }
        ensures bytes { out.new ≡ written (length out.old) (stream_of (meaning self.now) label seed.now (length out.old)) };

    // d(label, head ‖ tail), of at most 131,072 bytes together.
    fn digest_within(&self, label: u8, head: &[u8], tail: &[u8]) -> [u8; 32]
        requires { length head.now + length tail.now ≤ 131072 }
        ensures { result ≡ (meaning self.now).d label (head.now ++ tail.now) }
    {
        let mut out = [0u8; 32];
        let _ = self.digest(label, head, tail, &mut out);
        out
    }

    // Fills `out`, of at most 262,144 bytes, with bytes 0, 1, 2 and on of the stream.
    fn stream_within(&self, label: u8, seed: &[u8; 32], out: &mut [u8])
        requires { length out.old ≤ 262144 }
        ensures { out.new ≡ first ((meaning self.now).e label seed.now) (length out.old) }
    {
        let _ = self.stream(label, seed, out);
    }

    ghost lawful: { (s : Self) → Lawful (meaning s) };
}

// The two functions of a suite within their limits: what lies past them is refused below, once for all suites.
pub trait WithinLimits {
    // the two functions; being asked changes nothing in a suite
    ghost meaning: { Self → Meaning };

    // d(label, head ‖ tail), of at most 131,072 bytes together.
    fn digest_within(&self, label: u8, head: &[u8], tail: &[u8]) -> [u8; 32]
        requires { length head.now + length tail.now ≤ 131072 }
        ensures { result ≡ (meaning self.now).d label (head.now ++ tail.now) };

    // Fills `out`, of at most 262,144 bytes, with bytes 0, 1, 2 and on of the stream.
    fn stream_within(&self, label: u8, seed: &[u8; 32], out: &mut [u8])
        requires { length out.old ≤ 262144 }
        ensures { out.new ≡ first ((meaning self.now).e label seed.now) (length out.old) };

    ghost lawful: { (s : Self) → Lawful (meaning s) };
}

impl<W: WithinLimits> Suite for W {
    ghost meaning = { W.WithinLimits.meaning };

    ghost lawful = { W.WithinLimits.lawful };

    fn digest(
        &self,
        label: u8,
        head: &[u8],
        tail: &[u8],
        out: &mut [u8; 32],
    ) -> Result<(), Refusal> {
        if head.len() + tail.len() > DIGEST_LIMIT {
            out.fill(0);
            return Err(Refusal::SuiteLimit { label });
        }
        *out = WithinLimits::digest_within(self, label, head, tail);
        Ok(())
    }

    fn stream(&self, label: u8, seed: &[u8; 32], out: &mut [u8]) -> Result<(), Refusal> {
        if out.len() > STREAM_LIMIT {
            out.fill(0);
            return Err(Refusal::SuiteLimit { label });
        }
        WithinLimits::stream_within(self, label, seed, out);
        Ok(())
    }

    fn digest_within(&self, label: u8, head: &[u8], tail: &[u8]) -> [u8; 32] {
        WithinLimits::digest_within(self, label, head, tail)
    }

    fn stream_within(&self, label: u8, seed: &[u8; 32], out: &mut [u8]) {
        WithinLimits::stream_within(self, label, seed, out);
    }
}
