// The loops over the bits of a packed vector: writing it, looking at it, reading it.
ghost use Rattle.std.specs.Prelude.{◌≡◌, length};
ghost use Rattle.packing.specs.Packed.{packed, width, elements, fault, codes_of, first_not};

use crate::encoding::Encoding;
use crate::fault::Fault;
use crate::reader::BitReader;
use refusal::Refusal;

// Whether every entry of `v` is a code; the first that is not is told at the byte where it would begin.
pub fn check_codes(encoding: Encoding, v: &[u8]) -> Result<(), Refusal>
    ensures { result ≡ codes_of encoding.order encoding.bits v.now }
{
    match v.iter().position(|x| u32::from(*x) >= encoding.order) {
        Some(i) => Err(Refusal::Element {
            place: encoding.byte_of(i),
        }),
        None => Ok(()),
    }
}

// Writes the packed form of codes. By index: a byte is full after an uneven number of entries, and taken one by one off
// `out.iter_mut()` the bytes need twice the time, with nothing known of them in a proof afterwards.
pub fn write(encoding: Encoding, v: &[u8], out: &mut [u8])
    requires codes { first_not encoding.order v.now ≡ length v.now }
    requires room { length out.old ≡ width encoding.bits (length v.now) }
    ensures { out.new ≡ packed encoding.bits v.now }
{
    let mut held: u32 = 0;
    let mut bits: u32 = 0;
    let mut j: usize = 0;
    for x in v {
        held |= u32::from(*x) << bits;
        bits += encoding.bits;
        if bits >= 8 {
            out[j] = (held & 0xff) as u8;
            j += 1;
            held >>= 8;
            bits -= 8;
        }
    }
    if bits > 0 {
        out[j] = held as u8;
    }
}

// What is wrong with a packed vector of `k` elements: the first that is no code, else a pad that is not zero. The pad is
// what the reader has left, so no iterator of the elements alone would do.
pub fn inspect(encoding: Encoding, k: usize, bytes: &[u8]) -> Result<(), Fault>
    requires { length bytes.now ≡ width encoding.bits k }
    ensures { result ≡ fault encoding.order encoding.bits k bytes.now }
{
    let mut reader = BitReader::new(bytes);
    for i in 0..k {
        if u32::from(reader.take(encoding.bits)) >= encoding.order {
            return Err(Fault::Element(i));
        }
    }
    if !reader.is_zero() {
        return Err(Fault::Pad);
    }
    Ok(())
}

// Writes what the bits of `bytes` are, element by element, codes or not.
pub fn read(encoding: Encoding, bytes: &[u8], out: &mut [u8])
    requires { length bytes.now ≡ width encoding.bits (length out.old) }
    ensures { out.new ≡ elements encoding.bits (length out.old) bytes.now }
{
    let mut reader = BitReader::new(bytes);
    for x in out.iter_mut() {
        *x = reader.take(encoding.bits);
    }
}
