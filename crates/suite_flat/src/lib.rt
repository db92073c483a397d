// A suite for tests whose digest looks at nothing but the label: it brings every drawing to where it falls short.
#![tactic(auto)]

ghost use Rattle.suite_flat.specs.Flat.{flat_meaning};
ghost use Rattle.suite_flat.specs.Laws.{flat_lawful};

use suite::WithinLimits;
use suite_bench::Bench;

// A digest is 32 times the byte label + shift; the stream is the bench suite's.
#[derive(Clone, Copy)]
pub struct Flat {
    pub shift: u8,
}

impl WithinLimits for Flat {
    ghost meaning = { λ s. flat_meaning s.shift };

    ghost lawful = { λ s. flat_lawful s.shift };

    fn digest_within(&self, label: u8, _head: &[u8], _tail: &[u8]) -> [u8; 32] {
        [label.wrapping_add(self.shift); 32]
    }

    fn stream_within(&self, label: u8, seed: &[u8; 32], out: &mut [u8]) {
        Bench.stream_within(label, seed, out);
    }
}
