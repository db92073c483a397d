// The sum of an equation's terms in whole numbers.
ghost use Rattle.std.specs.Prelude.{◌≡◌, ◌*◌, ◌≤◌, length};
ghost use Rattle.field.specs.Codes.{Codes};
ghost use Rattle.gf31.specs.Whole.{whole, AtMonomials};

// The sum with no remainder taken. A product has 16 bits, and is widened as it is added: compilers turn this form into wide products.
pub fn whole_sum(cs: &[u8], terms: &[u16]) -> u32
    requires len { length cs.now ≡ length terms.now }
    requires short { length terms.now ≤ 2144 }
    requires codes { Codes 31 cs.now }
    requires small { Codes 1801 terms.now }
    ensures value { result ≡ whole cs.now terms.now }
    ensures bound { result ≤ 54000 * length terms.now }
    ensures equation { AtMonomials terms.now result }
{
    let mut sum = 0u32;
    for (&c, &term) in cs.iter().zip(terms) {
        sum += (c as u16 * term) as u32;
    }
    sum
}
