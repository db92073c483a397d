// The commitments of a signature: of each round one commitment that was worked out anew, and one that the signature carries.
ghost use Rattle.std.specs.Prelude.{◌≡◌, ◌*◌, ◌<◌, ◌++◌, length};
ghost use Rattle.params.specs.Sizes.{signature_length};
ghost use Rattle.wire.specs.Layout.{part};
ghost use Rattle.scheme.specs.Verifying.{commitment_of, other_in};

use wire::layout::Layout;

// The commitments of a signature: in `half` the one of each round that was worked out anew.
#[derive(Clone, Copy)]
pub struct Commitments<'a> {
    pub layout: Layout,
    pub signature: &'a [u8],
    pub half: &'a [u8],
    pub ghost long: { length signature.now ≡ signature_length layout.encoding.bits layout.set.set },
    pub ghost of_half: { length half.now ≡ layout.set.set.r * 32 },
}

impl<'a> Commitments<'a> {
    // Commitment `side` of a round: lent from what was worked out anew where the bit is that side, else from the signature.
    // Bit and side are bytes: the bit is the lowest of a byte of a stream, and the contract compares the two as numbers.
    pub fn commitment(&self, round: usize, bit: u8, side: u8) -> &'a [u8]
        requires { round < self.now.layout.set.set.r }
        ensures long { length result.now ≡ 32 }
        ensures value { result.now ≡ commitment_of bit side (part self.now.half.now (round * 32) 32) (other_in self.now.layout.encoding.bits self.now.layout.set.set self.now.signature.now round) }
    {
        if bit == side {
            let at = round * 32;
            return &self.half[at..at + 32];
        }
        let at = self.layout.carried(round);
        &self.signature[at..at + 32]
    }

    // Both commitments of a round, one behind the other.
    pub fn write_round(&self, round: usize, bit: u8, out: &mut [u8])
        requires round { round < self.now.layout.set.set.r }
        requires out { length out.old ≡ 64 }
        ensures { out.new ≡ commitment_of bit 0 (part self.now.half.now (round * 32) 32) (other_in self.now.layout.encoding.bits self.now.layout.set.set self.now.signature.now round) ++ commitment_of bit 1 (part self.now.half.now (round * 32) 32) (other_in self.now.layout.encoding.bits self.now.layout.set.set self.now.signature.now round) }
    {
        let (c0, c1) = out.split_at_mut(32);
        c0.copy_from_slice(self.commitment(round, bit, 0));
        c1.copy_from_slice(self.commitment(round, bit, 1));
    }
}
