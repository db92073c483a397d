// The algebra of the quadratic map over any commutative ring with unit, and over the codes of any field.
#![tactic(auto)]

ghost use Rattle.field.specs.Ring.{Ops, Laws};
ghost use Rattle.algebra.specs.Laws.{Linear, Completes, Extracts, whole_ring, codes_below};

use field::Field;

// The laws, over every ring whose elements are a type's values. Nothing is computed: the contract is the theorem.
pub fn ring_laws_stand<T>() -> u8
    ensures linear { (o : Ops T) → Laws o → Linear o (whole_ring o) }
    ensures completes { (o : Ops T) → Laws o → Completes o (whole_ring o) }
    ensures extracts { (o : Ops T) → Laws o → Extracts o (whole_ring o) }
{
    0
}

// The same laws over the codes of every field.
pub fn field_laws_stand<F: Field>() -> u8
    ensures linear { Linear F.Field.coding.ops (codes_below F.Field.coding.q) }
    ensures completes { Completes F.Field.coding.ops (codes_below F.Field.coding.q) }
    ensures extracts { Extracts F.Field.coding.ops (codes_below F.Field.coding.q) }
{
    0
}
