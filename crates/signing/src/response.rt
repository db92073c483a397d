// The second answers: r0 or r1 of every round by its bit, and the commitment of the other side.
ghost use Rattle.std.specs.Prelude.{◌≡◌, ◌+◌, ◌*◌, ◌%◌, ◌<◌, ◌≤◌, length, Ok, slice_index};
ghost use Rattle.packing.specs.Packed.{width, packed};
ghost use Rattle.wire.specs.Layout.{part};
ghost use Rattle.suite.specs.Drawn.{Elements};
ghost use Rattle.scheme.specs.Rounds.{chosen_by_bit};
ghost use Rattle.scheme.specs.Signing.{pool_size, pools_of, r0, r1, responses};
ghost use Rattle.signing.specs.Steps.{carried};

use crate::signer::{Desk, Signer, WORK};
use field::Field;
use params::GoodSet;
use refusal::Refusal;
use suite::Suite;
use vectors::difference;
use vectors::packed::store;

impl<F: Field, S: Suite> Signer<'_, F, S> {
    // r0 of a round where the bit is 0, else r1 = s - r0, packed.
    fn respond_round(&self, bit: u8, drawn: &[u8], work: &mut [u8; WORK], out: &mut [u8])
        requires drawn { Elements F.Field.coding.q (pool_size self.now.instance.set.set) drawn.now }
        requires out { length out.old ≡ width F.Field.coding.bits self.now.instance.set.set.n }
        ensures { out.new ≡ packed F.Field.coding.bits (chosen_by_bit bit (r0 self.now.instance.set.set drawn.now) (r1 F.Field.coding self.now.instance.set.set self.now.s.now drawn.now)) }
    {
        let round = self.cut(drawn);
        if bit == 0 {
            store::<F>(round.r, out);
            return;
        }
        let r1 = &mut work[0..self.instance.set.set.n];
        difference::<F>(self.s, round.r, r1);
        store::<F>(r1, out);
    }

    // The responses of all rounds, packed, by the lowest bit of each byte of `bits`.
    pub fn respond(&self, bits: &[u8], desk: &mut Desk, out: &mut [u8]) -> Result<(), Refusal>
        requires bits { length bits.now ≡ self.now.instance.set.set.r }
        requires out { length out.old ≡ self.now.instance.set.set.r * width F.Field.coding.bits self.now.instance.set.set.n }
        ensures answer { result ≡ pools_of F.Field.coding (S.Suite.meaning self.now.instance.suite.now) self.now.instance.set.set self.now.k.now self.now.d.now }
        ensures bytes { result ≡ Ok tt → out.new ≡ responses F.Field.coding (S.Suite.meaning self.now.instance.suite.now) self.now.instance.set.set self.now.k.now self.now.d.now self.now.s.now (λ i. slice_index bits.now i % 2) }
    {
        let size = F::encoding().width(self.instance.set.set.n);
        self.each_round(desk, size, out, |i, drawn, work, part| {
            self.respond_round(bits[i] % 2, drawn, work, part)
        })
    }
}

// The commitment of the side that a round does not open.
fn carry_round(list: &[u8], round: usize, bit: u8, out: &mut [u8])
    requires round { round < 65536 }
    requires list { round * 64 + 64 ≤ length list.now }
    requires out { length out.old ≡ 32 }
    ensures { out.new ≡ chosen_by_bit bit (part list.now (round * 64 + 32) 32) (part list.now (round * 64) 32) }
{
    let at = if bit == 0 {
        round * 64 + 32
    } else {
        round * 64
    };
    out.copy_from_slice(&list[at..at + 32]);
}

// The commitments of the sides that are not opened, of all rounds.
pub fn carry(set: GoodSet, list: &[u8], bits: &[u8], out: &mut [u8])
    requires list { length list.now ≡ set.set.r * 64 }
    requires bits { length bits.now ≡ set.set.r }
    requires out { length out.old ≡ set.set.r * 32 }
    ensures { out.new ≡ carried set.set list.now bits.now }
{
    // `out` by index, as in `each_round`: after a walk over its chunks a proof knows only how long it is.
    for (i, bit) in bits.iter().enumerate() {
        let at = i * 32;
        carry_round(list, i, *bit % 2, &mut out[at..at + 32]);
    }
}
