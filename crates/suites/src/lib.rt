// The suites that a program can be told by name, as one type that is a suite itself.
#![tactic(auto)]

ghost use Rattle.std.specs.Prelude.{◌≡◌, Some, None, codes, ◌≢◌};
ghost use Rattle.suites.specs.Named.{meaning_of};
ghost use Rattle.suite_bench.specs.Laws.{bench_lawful};
ghost use Rattle.suite_keccak.specs.Laws.{keccak_lawful};
ghost use Rattle.suites.specs.declared.Named.TheVariants.{Bench, Keccak};

mod names;

pub use names::UnknownSuite;
use suite::WithinLimits;
use suite_bench::Bench;
use suite_keccak::Keccak;

#[derive(Clone, Copy, PartialEq, Eq, Debug)]
pub enum Named {
    Bench,
    Keccak,
}

impl Named {
    // The suite of a name on the command line.
    pub fn of(name: &str) -> Option<Named>
        ensures bench { name.now ≡ codes "bench" → result ≡ Some Named.Bench }
        ensures keccak { name.now ≡ codes "keccak" → result ≡ Some Named.Keccak }
        ensures other { (name.now ≢ codes "bench") → (name.now ≢ codes "keccak") → result ≡ None }
    {
        name.parse().ok()
    }
}

impl WithinLimits for Named {
    ghost meaning = { meaning_of };

    ghost lawful = { elim [ Bench ↦ bench_lawful | Keccak ↦ keccak_lawful ] };

    fn digest_within(&self, label: u8, head: &[u8], tail: &[u8]) -> [u8; 32] {
        match self {
            Named::Bench => Bench.digest_within(label, head, tail),
            Named::Keccak => Keccak.digest_within(label, head, tail),
        }
    }

    fn stream_within(&self, label: u8, seed: &[u8; 32], out: &mut [u8]) {
        match self {
            Named::Bench => Bench.stream_within(label, seed, out),
            Named::Keccak => Keccak.stream_within(label, seed, out),
        }
    }
}
