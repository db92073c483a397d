// Drawing elements of a field from a stream, in a lent buffer.
ghost use Rattle.std.specs.Prelude.{◌≡◌, ◌≤◌, length, take, drop};
ghost use Rattle.refusal.specs.Outcome.{told};
ghost use Rattle.field.specs.Coding.{reads};
ghost use Rattle.suite.specs.Drawn.{draw_of, Holds, Draws};
ghost use Rattle.suite.specs.Sifted.{sifted};

use crate::Suite;
use field::Field;
use field::drawing::drawing_len;
use packing::encoding::Encoding;
use refusal::{Buffer, Layer, Refusal};

// Moves the elements that the bytes of `part` give to its front, and says how many there are.
fn sift(encoding: Encoding, part: &mut [u8]) -> usize
    ensures count { result ≡ length (sifted encoding.order encoding.bits part.old) }
    ensures front { take result part.new ≡ sifted encoding.order encoding.bits part.old }
{
    let mask = ((1u32 << encoding.bits) - 1) as u8;
    let mut found: usize = 0;
    // By index: the front is written while the rest is read, which no iterator of one slice does.
    for i in 0..part.len() {
        let x = part[i] & mask;
        if u32::from(x) < encoding.order {
            part[found] = x;
            found += 1;
        }
    }
    found
}

// Draws `count` elements into the front of `buffer`, whose first B(count) bytes it uses.
pub fn draw<F: Field, S: Suite>(
    suite: &S,
    label: u8,
    seed: &[u8; 32],
    buffer: &mut [u8],
    count: usize,
) -> Result<(), Refusal>
    ensures answer { result ≡ told (draw_of F.Field.coding (S.Suite.meaning suite.now) label seed.now count (length buffer.old)) }
    ensures front { Holds (draw_of F.Field.coding (S.Suite.meaning suite.now) label seed.now count (length buffer.old)) (take count buffer.new) }
    ensures rest { drop (reads count) buffer.new ≡ drop (reads count) buffer.old }
    ensures law { Draws F.Field.coding (S.Suite.meaning suite.now) label seed.now count (length buffer.old) result (take count buffer.new) }
{
    let room = buffer.len();
    if count > room || drawing_len(count) > room {
        return Err(Refusal::BufferLength {
            layer: Layer::Suite,
            buffer: Buffer::Map,
        });
    }
    let part = &mut buffer[..drawing_len(count)];
    suite.stream(label, seed, part)?;
    if sift(F::encoding(), part) < count {
        return Err(Refusal::TooFewElements { label });
    }
    Ok(())
}
