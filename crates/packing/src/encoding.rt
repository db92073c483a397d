// How an element of a field lies in bytes.
ghost use Rattle.std.specs.Prelude.{◌^◌, ◌≤◌};

// The codes of the elements are the numbers below `order`, each written with `bits` bits.
#[derive(Clone, Copy)]
pub struct Encoding {
    pub bits: u32,
    pub order: u32,
    ghost some: { 1 ≤ bits },
    ghost few: { bits ≤ 8 },
    ghost fits: { order ≤ 2 ^ bits },
}
