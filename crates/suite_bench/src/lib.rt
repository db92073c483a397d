// The bench suite: a digest and a stream that can be worked out by hand. It has no strength.
#![tactic(auto)]

ghost use Rattle.std.specs.Prelude.{◌≡◌, ℕ, ◌+◌, ◌%◌, ◌^◌, ◌<◌, length, slice_index};
ghost use Rattle.suite_bench.specs.Sums.{lane, bench_meaning};
ghost use Rattle.suite_bench.specs.Laws.{bench_lawful};

use suite::WithinLimits;

#[derive(Clone, Copy)]
pub struct Bench;

// Adds each byte of `part`, which stands from `at` on in X, to its place modulo 32.
fn absorb(out: &mut [u8], at: usize, part: &[u8])
    requires len { length out.old ≡ 32 }
    requires fits { at + length part.now < 2 ^ 64 }
    requires bytes { (i : ℕ) → i < 32 → slice_index out.old i < 256 }
    ensures { (i : ℕ) → i < 32 → slice_index out.new i ≡ (slice_index out.old i + lane at i part.now) % 256 }
{
    for (k, b) in part.iter().enumerate() {
        let i = (at + k) % 32;
        out[i] = out[i].wrapping_add(*b);
    }
}

impl WithinLimits for Bench {
    ghost meaning = { λ _. bench_meaning };

    ghost lawful = { λ s. bench_lawful };

    fn digest_within(&self, label: u8, head: &[u8], tail: &[u8]) -> [u8; 32] {
        let mut out = [label; 32];
        absorb(&mut out, 0, head);
        absorb(&mut out, head.len(), tail);
        out
    }

    fn stream_within(&self, label: u8, seed: &[u8; 32], out: &mut [u8]) {
        for (k, b) in out.iter_mut().enumerate() {
            *b = seed[k % 32].wrapping_add(label);
        }
    }
}
