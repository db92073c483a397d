// Where the vectors of a signature stand, and how an element or a pad bit in one is spoiled.
use params::Set;

// P(k)
pub fn packed_len(k: usize) -> usize {
    k.saturating_mul(5).saturating_add(7) / 8
}

// Sets bit `b` of a row of bytes.
fn set_bit(bytes: &mut [u8], b: usize) {
    if let Some(x) = bytes.get_mut(b / 8) {
        *x |= 1u8 << (b % 8);
    }
}

// A packed vector: the byte at which it begins, and how many elements it has.
#[derive(Clone, Copy)]
pub struct Packed {
    pub at: usize,
    pub count: usize,
}

impl Packed {
    // The bit at which element i begins.
    fn bit_of(self, i: usize) -> usize {
        self.at
            .saturating_mul(8)
            .saturating_add(i.saturating_mul(5))
    }

    // Makes element i a 31.
    pub fn put_31(self, bytes: &mut [u8], i: usize) {
        let first = self.bit_of(i);
        for b in first..first.saturating_add(5) {
            set_bit(bytes, b);
        }
    }

    // Sets pad bit t.
    pub fn put_pad(self, bytes: &mut [u8], t: usize) {
        set_bit(bytes, self.bit_of(self.count).saturating_add(t));
    }

    // How many bits the pad has.
    pub fn pads(self) -> usize {
        packed_len(self.count)
            .saturating_mul(8)
            .saturating_sub(self.count.saturating_mul(5))
    }

    // The byte of the lowest bit of element i.
    pub fn place_of(self, i: usize) -> usize {
        self.bit_of(i) / 8
    }

    // The last byte.
    pub fn last(self) -> usize {
        self.at
            .saturating_add(packed_len(self.count))
            .saturating_sub(1)
    }
}

// t1, e1 and the response of a round.
pub fn vectors_of(set: Set, i: usize) -> [Packed; 3] {
    let n = packed_len(set.n);
    let both = n.saturating_add(packed_len(set.m));
    let t1 = i.saturating_mul(both).saturating_add(64);
    let responses = set.r.saturating_mul(both).saturating_add(64);
    [
        Packed {
            at: t1,
            count: set.n,
        },
        Packed {
            at: t1.saturating_add(n),
            count: set.m,
        },
        Packed {
            at: responses.saturating_add(i.saturating_mul(n)),
            count: set.n,
        },
    ]
}
