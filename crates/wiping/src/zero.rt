// The numbers that memory is wiped in.
ghost use Rattle.std.specs.Prelude.{◌≡◌, ◌↔◌, true, bit_or};
ghost use Rattle.std.proofs.Common.{rules, arith, refl};
ghost use Rattle.std.proofs.lemmas.Nat.{le_or_l, le_or_r};

use std::ops::BitOr;

pub trait Zero: Copy + BitOr<Self, Output = Self> + PartialEq {
    ghost ZERO: { Self };

    const ZERO: Self;

    // what `|` gives, at any two
    ghost or: { Self → Self → Self };

    ghost can_or: { (x y : Self) → Self.can_bitor x y };

    ghost gives: { (x y r : Self) → Self.bitor_gives x y r ↔ (r ≡ or x y) };

    // it is zero just where both are
    ghost both: { Self.bitor_gives ZERO ZERO ZERO };

    ghost left: { (x y : Self) → Self.bitor_gives x y ZERO → x ≡ ZERO };

    ghost right: { (x y : Self) → Self.bitor_gives x y ZERO → y ≡ ZERO };

    // what `==` says
    ghost equal: { (x : Self) → Self.eq x ZERO ≡ true ↔ x ≡ ZERO };

    // a copy of zero can be made, and is zero
    ghost copied: { Self.is_infallible ZERO };

    ghost same: { (y : Self) → Self.is_clone ZERO y → y ≡ ZERO };
}

impl Zero for u8 {
    ghost ZERO = { 0 };

    const ZERO: u8 = 0;

    ghost or = { bit_or };

    ghost can_or = { λ x y. Prim.search rules };

    ghost gives = { λ x y r. (λ h. h, λ h. h) };

    ghost both = { Prim.search rules };

    ghost left = { λ x y h. omega (arith, le_or_l x y) };

    ghost right = { λ x y h. omega (arith, le_or_r x y) };

    ghost equal = { λ x. Prim.search rules };

    ghost copied = { Prim.search rules };

    ghost same = { Prim.search rules };
}

impl Zero for u16 {
    ghost ZERO = { 0 };

    const ZERO: u16 = 0;

    ghost or = { bit_or };

    ghost can_or = { λ x y. Prim.search rules };

    ghost gives = { λ x y r. (λ h. h, λ h. h) };

    ghost both = { Prim.search rules };

    ghost left = { λ x y h. omega (arith, le_or_l x y) };

    ghost right = { λ x y h. omega (arith, le_or_r x y) };

    ghost equal = { λ x. Prim.search rules };

    ghost copied = { Prim.search rules };

    ghost same = { Prim.search rules };
}
