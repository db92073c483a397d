// Parameter sets, and the sizes that follow from them.
#![tactic(auto)]

ghost use Rattle.std.specs.Prelude.{◌≡◌, ◌≤◌, true, IfOk};
ghost use Rattle.refusal.specs.Outcome.{told};
ghost use Rattle.params.specs.Sets.{good, set_of};
ghost use Rattle.params.specs.Sizes.{coefficients_of, key_length, signature_length};

mod good;

pub use field::drawing::drawing_len;
pub use good::GoodSet;
use packing::encoding::Encoding;
use refusal::Refusal;

// n variables, m equations and r rounds, as a caller gives them; `check` says whether they are lawful.
#[derive(Clone, Copy, PartialEq, Eq, Debug)]
pub struct Set {
    pub n: usize,
    pub m: usize,
    pub r: usize,
}

pub const MQDSS_31_64: Set = Set {
    n: 64,
    m: 64,
    r: 269,
};

impl Set {
    // Refused unless n and m are 1 to 64 and r is 1 to 269.
    pub fn check(self) -> Result<GoodSet, Refusal>
        ensures answer { told result ≡ set_of self }
        ensures set { IfOk result (λ good. good.set ≡ self) }
    {
        let Set { n, m, r } = self;
        if (1..=64).contains(&n) && (1..=64).contains(&m) && (1..=269).contains(&r) {
            Ok(GoodSet { set: self })
        } else {
            Err(Refusal::BadSet)
        }
    }

    // The sizes of a set that is known to be lawful, for callers with no answer of `check` at hand.
    pub fn coefficients(self) -> usize
        requires { good self ≡ true }
        ensures value { result ≡ coefficients_of self }
        ensures few { result ≤ 137216 }
    {
        GoodSet { set: self }.coefficients()
    }

    pub fn key_len(self, encoding: Encoding) -> usize
        requires { good self ≡ true }
        ensures { result ≡ key_length encoding.bits self }
    {
        GoodSet { set: self }.key_len(encoding)
    }

    pub fn signature_len(self, encoding: Encoding) -> usize
        requires { good self ≡ true }
        ensures value { result ≡ signature_length encoding.bits self }
        ensures few { result ≤ 60320 }
    {
        GoodSet { set: self }.signature_len(encoding)
    }
}

impl GoodSet {
    // How many coefficients the map has.
    pub fn coefficients(self) -> usize
        ensures value { result ≡ coefficients_of self.set }
        ensures few { result ≤ 137216 }
    {
        let Set { n, m, r: _ } = self.set;
        m * (n * (n + 1) / 2 + n)
    }

    // The bytes of a public key.
    pub fn key_len(self, encoding: Encoding) -> usize
        ensures { result ≡ key_length encoding.bits self.set }
    {
        32 + encoding.width(self.set.m)
    }

    // The bytes of a signature.
    pub fn signature_len(self, encoding: Encoding) -> usize
        ensures value { result ≡ signature_length encoding.bits self.set }
        ensures few { result ≤ 60320 }
    {
        let Set { n, m, r } = self.set;
        64 + r * (32 + 2 * encoding.width(n) + encoding.width(m))
    }
}
