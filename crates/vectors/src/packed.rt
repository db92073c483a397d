// Vectors of codes in their packed form.
ghost use Rattle.std.specs.Prelude.{◌≡◌, ◌+◌, ◌++◌, length};
ghost use Rattle.field.specs.Codes.{Codes};
ghost use Rattle.packing.specs.Packed.{width, packed, elements};

use field::Field;
use packing::bits::{read, write};

// Writes the packed form of `v`.
pub fn store<F: Field>(v: &[u8], out: &mut [u8])
    requires codes { Codes F.Field.coding.q v.now }
    requires room { length out.old ≡ width F.Field.coding.bits (length v.now) }
    ensures { out.new ≡ packed F.Field.coding.bits v.now }
{
    write(F::encoding(), v, out);
}

// Writes the packed forms of `x` and `y`, one behind the other.
pub fn store_both<F: Field>(x: &[u8], y: &[u8], out: &mut [u8])
    requires left { Codes F.Field.coding.q x.now }
    requires right { Codes F.Field.coding.q y.now }
    requires room { length out.old ≡ width F.Field.coding.bits (length x.now) + width F.Field.coding.bits (length y.now) }
    ensures { out.new ≡ packed F.Field.coding.bits x.now ++ packed F.Field.coding.bits y.now }
{
    let middle = F::encoding().width(x.len());
    store::<F>(x, &mut out[0..middle]);
    store::<F>(y, &mut out[middle..]);
}

// Reads a packed vector of as many elements as `out` has places, codes or not.
pub fn load<F: Field>(bytes: &[u8], out: &mut [u8])
    requires { length bytes.now ≡ width F.Field.coding.bits (length out.old) }
    ensures { out.new ≡ elements F.Field.coding.bits (length out.old) bytes.now }
{
    read(F::encoding(), bytes, out);
}
