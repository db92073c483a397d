// Packed vectors: elements of a few bits each, one after the other, from the lowest bit of the first byte.
#![tactic(auto)]

ghost use Rattle.std.specs.Prelude.{◌≡◌, length, Ok, Err};
ghost use Rattle.refusal.specs.Outcome.{told, written};
ghost use Rattle.packing.specs.Packed.{width, pack_of, unpack_by, unpack_of, unpack_key_of, Within, Tells};
ghost use Rattle.packing.specs.Laws.{Packs, Unpacks, Judges, Wrong, KeyWrong};

pub mod bits;
pub mod encoding;
pub mod fault;
mod reader;

use bits::{check_codes, inspect, read, write};
use encoding::Encoding;
use fault::Fault;
use refusal::{Buffer, Layer, Refusal};

const LENGTH: Refusal = Refusal::BufferLength {
    layer: Layer::Packing,
    buffer: Buffer::Answer,
};

// Writes the packed form of `v`; refused where `out` has another length than that, or an entry is no code.
pub fn pack(encoding: Encoding, v: &[u8], out: &mut [u8]) -> Result<(), Refusal>
    ensures answer { result ≡ told (pack_of encoding.order encoding.bits v.now (length out.old)) }
    ensures bytes { out.new ≡ written (length out.old) (pack_of encoding.order encoding.bits v.now (length out.old)) }
    ensures law { result ≡ Ok tt → Packs encoding.order encoding.bits v.now out.new }
{
    out.fill(0);
    if out.len() != encoding.width(v.len()) {
        return Err(LENGTH);
    }
    check_codes(encoding, v)?;
    write(encoding, v, out);
    Ok(())
}

// Reads a packed vector of as many elements as `out` has places; `refuse` tells what is wrong with one.
fn unpack_with<F: FnOnce(Fault) -> Refusal>(
    encoding: Encoding,
    bytes: &[u8],
    out: &mut [u8],
    refuse: F,
) -> Result<(), Refusal>
    requires { (x : _) → Within (length out.old) x → F.pre refuse x }
    ensures answer { (f : _) → Tells (length out.old) (F.post refuse) f → result ≡ told (unpack_by f encoding.order encoding.bits (length out.old) bytes.now) }
    ensures bytes { (f : _) → Tells (length out.old) (F.post refuse) f → out.new ≡ written (length out.old) (unpack_by f encoding.order encoding.bits (length out.old) bytes.now) }
    ensures law { result ≡ Ok tt → Unpacks encoding.order encoding.bits bytes.now out.new }
{
    out.fill(0);
    if bytes.len() != encoding.width(out.len()) {
        return Err(LENGTH);
    }
    inspect(encoding, out.len(), bytes).map_err(refuse)?;
    read(encoding, bytes, out);
    Ok(())
}

// Reads a packed vector of as many elements as `out` has places, as it stands in a signature.
pub fn unpack(encoding: Encoding, bytes: &[u8], out: &mut [u8]) -> Result<(), Refusal>
    ensures answer { result ≡ told (unpack_of encoding.order encoding.bits (length out.old) bytes.now) }
    ensures bytes { out.new ≡ written (length out.old) (unpack_of encoding.order encoding.bits (length out.old) bytes.now) }
    ensures law { result ≡ Ok tt → Unpacks encoding.order encoding.bits bytes.now out.new }
    ensures judged { length bytes.now ≡ width encoding.bits (length out.old) → Judges (Wrong encoding.order encoding.bits 0 (length out.old) bytes.now) result }
{
    let k = out.len();
    unpack_with(
        encoding,
        bytes,
        out,
        |fault| fault.in_signature(encoding, 0, k),
    )
}

// Reads a packed vector of as many elements as `out` has places, as it stands in a public key.
pub fn unpack_key(encoding: Encoding, bytes: &[u8], out: &mut [u8]) -> Result<(), Refusal>
    ensures answer { result ≡ told (unpack_key_of encoding.order encoding.bits (length out.old) bytes.now) }
    ensures bytes { out.new ≡ written (length out.old) (unpack_key_of encoding.order encoding.bits (length out.old) bytes.now) }
    ensures law { result ≡ Ok tt → Unpacks encoding.order encoding.bits bytes.now out.new }
    ensures judged { length bytes.now ≡ width encoding.bits (length out.old) → Judges (KeyWrong encoding.order encoding.bits (length out.old) bytes.now) result }
{
    let k = out.len();
    unpack_with(encoding, bytes, out, |fault| fault.in_key(k))
}

#[cfg(test)]
mod tests;
