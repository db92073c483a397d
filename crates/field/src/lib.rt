// What a finite field promises: its elements are codes, its operations keep a field's laws, and its codes lie in bytes in one way.
#![tactic(auto)]

ghost use Rattle.std.specs.Prelude.{◌≡◌, ◌<◌, ◌≤◌, map, length};
ghost use Rattle.field.specs.Codes.{Codes};
ghost use Rattle.field.specs.Coding.{Coding, Coded};
ghost use Rattle.field.specs.Terms.{dot};
ghost use Rattle.field.specs.Ring.{sub as minus};

pub mod drawing;

use packing::encoding::Encoding;

pub trait Field {
    // the codes, the operations on them, and their bits
    ghost coding: { Coding };

    // how an element lies in bytes, for packing and drawing
    fn encoding() -> Encoding
        ensures bits { result.bits ≡ coding.bits }
        ensures order { result.order ≡ coding.q };

    // By codes: vectors lie in lent bytes, so an element type would be wrapped at each read and unwrapped at each write.
    fn add(a: u8, b: u8) -> u8
        requires a { a < coding.q }
        requires b { b < coding.q }
        ensures { result ≡ coding.ops.add a b };

    fn sub(a: u8, b: u8) -> u8
        requires a { a < coding.q }
        requires b { b < coding.q }
        ensures { result ≡ minus coding.ops a b };

    fn mul(a: u8, b: u8) -> u8
        requires a { a < coding.q }
        requires b { b < coding.q }
        ensures { result ≡ coding.ops.mul a b };

    // The term of a product. A term stands for an element in the form in which the field adds up an equation, so that each field
    // is free to put off what its sums cost.
    fn product(a: u8, b: u8) -> u16
        requires a { a < coding.q }
        requires b { b < coding.q }
        ensures stands { coding.stands result ≡ coding.ops.mul a b }
        ensures small { result < coding.limit };

    // the term of an element
    fn term(a: u8) -> u16
        requires { a < coding.q }
        ensures stands { coding.stands result ≡ a }
        ensures small { result < coding.limit };

    // the term of a·d + b·c
    fn cross(a: u8, b: u8, c: u8, d: u8) -> u16
        requires a { a < coding.q }
        requires b { b < coding.q }
        requires c { c < coding.q }
        requires d { d < coding.q }
        ensures stands { coding.stands result ≡ coding.ops.add (coding.ops.mul a d) (coding.ops.mul b c) }
        ensures small { result < coding.limit };

    // the field's sum of coefficients times terms, of at most as many as 64 variables have monomials
    fn total(cs: &[u8], terms: &[u16]) -> u8
        requires len { length cs.now ≡ length terms.now }
        requires short { length terms.now ≤ 2144 }
        requires codes { Codes coding.q cs.now }
        requires small { Codes coding.limit terms.now }
        ensures sum { result ≡ dot coding.ops cs.now (map coding.stands terms.now) }
        ensures code { result < coding.q };

    ghost coded: { Coded coding };
}
