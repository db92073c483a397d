// The field of 31 elements.
#![tactic(auto)]

ghost use Rattle.gf31.specs.Modulo.{coding31};
ghost use Rattle.gf31.specs.Laws.{coded31};

pub mod sum;

use field::Field;
use packing::encoding::Encoding;
use sum::whole_sum;

#[derive(Clone, Copy)]
pub struct Gf31 {}

impl Field for Gf31 {
    ghost coding = { coding31 };

    ghost coded = { coded31 };

    fn encoding() -> Encoding {
        Encoding { bits: 5, order: 31 }
    }

    fn add(a: u8, b: u8) -> u8 {
        (a + b) % 31
    }

    fn sub(a: u8, b: u8) -> u8 {
        (a + (31 - b)) % 31
    }

    fn mul(a: u8, b: u8) -> u8 {
        (a as u16 * b as u16 % 31) as u8
    }

    fn product(a: u8, b: u8) -> u16 {
        a as u16 * b as u16
    }

    fn term(a: u8) -> u16 {
        a as u16
    }

    fn cross(a: u8, b: u8, c: u8, d: u8) -> u16 {
        a as u16 * d as u16 + b as u16 * c as u16
    }

    fn total(cs: &[u8], terms: &[u16]) -> u8 {
        (whole_sum(cs, terms) % 31) as u8
    }
}
