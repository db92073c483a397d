// Numbers of a few bits each, read off bytes from the lowest bit of the first.
ghost use Rattle.std.specs.Prelude.{◌≡◌, ℕ, ◌+◌, ◌-◌, ◌*◌, ◌/◌, ◌%◌, ◌^◌, ◌<◌, ◌≤◌, ◌↔◌, IsTrue, length};
ghost use Rattle.packing.specs.Numeral.{amount};
ghost use Rattle.packing.specs.Unread.{Unread};

use std::marker::Model;

// The bytes that are still to be read, and below them the `bits` bits of the number `held`.
#[derive(Drop)]
pub struct BitReader<'a> {
    bytes: &'a [u8],
    held: u32,
    bits: u32,
}

impl<'a> Model for BitReader<'a> {
    ghost Value = { Unread };

    ghost view = { λ r. record { number = r.held + 2 ^ r.bits * amount 256 r.bytes.now; left = r.bits + 8 * length r.bytes.now } };

    ghost invariant = { λ r. (r.held < 2 ^ r.bits) × (r.bits < 8) };
}

impl<'a> BitReader<'a> {
    pub fn new(bytes: &'a [u8]) -> Self
        ensures number { result.number ≡ amount 256 bytes.now }
        ensures left { result.left ≡ 8 * length bytes.now }
    {
        BitReader {
            bytes,
            held: 0,
            bits: 0,
        }
    }

    // The number that the lowest `n` bits write.
    #[inline]
    pub fn take(&mut self, n: u32) -> u8
        requires some { 1 ≤ n }
        requires few { n ≤ 8 }
        requires enough { n ≤ self.old.left }
        ensures value { result ≡ self.old.number % 2 ^ n }
        ensures number { self.new.number ≡ self.old.number / 2 ^ n }
        ensures left { self.new.left ≡ self.old.left - n }
    {
        if self.bits < n {
            self.held |= u32::from(self.bytes[0]) << self.bits;
            self.bits += 8;
            self.bytes = &self.bytes[1..];
        }
        let value = self.held & ((1 << n) - 1);
        self.held >>= n;
        self.bits -= n;
        value as u8
    }

    // Whether the bits that are left, too few for a byte, are all zero.
    pub fn is_zero(&self) -> bool
        requires { self.now.left < 8 }
        ensures { IsTrue result ↔ self.now.number ≡ 0 }
    {
        self.held == 0
    }
}
