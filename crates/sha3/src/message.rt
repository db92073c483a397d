//! A message in parts, and the bytes that fill its last block.
ghost use Rattle.std.specs.Prelude.{◌≡◌, ◌<◌, ◌≤◌, length, slice_index};
ghost use Rattle.sha3.specs.Padding.{filling};

/// A label of at most one byte, a head and a tail, one after another.
#[derive(Clone, Copy)]
pub struct Message<'a> {
    pub label: &'a [u8],
    pub head: &'a [u8],
    pub tail: &'a [u8],
    pub ghost short: { length label.now ≤ 1 },
}

impl<'a> Message<'a> {
    ghost use Rattle.sha3.specs.Fed.{joint, said};

    /// A message in one piece.
    pub fn whole(message: &'a [u8]) -> Message<'a>
        ensures { said result ≡ message.now }
    {
        Message {
            label: &[],
            head: message,
            tail: &[],
        }
    }

    /// A message that begins with a label.
    pub fn labelled(label: &'a [u8; 1], head: &'a [u8], tail: &'a [u8]) -> Message<'a>
        ensures { said result ≡ joint label.now head.now tail.now }
    {
        Message { label, head, tail }
    }
}

/// The q bytes that fill a last block.
#[derive(Clone, Copy)]
pub struct Filling {
    pub suffix: u8,
    pub q: usize,
    pub ghost low: { suffix < 128 },
}

impl Filling {
    /// Byte i of the filling, 0 past it.
    pub fn byte(self, i: usize) -> u8
        ensures { result ≡ slice_index (filling self.suffix self.q) i }
    {
        if i >= self.q {
            0
        } else if self.q == 1 {
            self.suffix + 128
        } else if i == 0 {
            self.suffix
        } else if i + 1 == self.q {
            128
        } else {
            0
        }
    }
}
