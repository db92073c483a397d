//! The functions of the standard, by the parameters of their sponges.
ghost use Rattle.std.specs.Prelude.{◌≡◌, ◌%◌, ◌<◌, ◌≤◌};

/// The bytes of a block, and the suffix of a message with the first bit of its padding.
#[derive(Clone, Copy)]
pub struct Function {
    pub rate: usize,
    pub suffix: u8,
    pub ghost whole: { rate % 8 ≡ 0 },
    pub ghost low: { 8 ≤ rate },
    pub ghost high: { rate ≤ 200 },
    pub ghost suffix_low: { suffix < 128 },
}

impl Function {
    pub const SHA3_256: Function = Function {
        rate: 136,
        suffix: 0x06,
    };

    pub const SHAKE128: Function = Function {
        rate: 168,
        suffix: 0x1f,
    };
}
