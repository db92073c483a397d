// What a call turns away: one case for each refusal, its three numbers, and its line of text.
#![tactic(auto)]

ghost use Rattle.std.specs.Prelude.{◌≡◌};
ghost use Rattle.refusal.specs.Numbers.{numbers_of, layer_of, buffer_of};

mod shown;

// The part of the kit that was called, by its number.
#[derive(Clone, Copy, PartialEq, Eq, Debug)]
pub enum Layer {
    Packing = 1,
    Suite = 2,
    Signature = 3,
    Watch = 4,
    Bundle = 5,
    Identification = 6,
}

// A buffer that the caller lends, by its place in a refusal.
#[derive(Clone, Copy, PartialEq, Eq, Debug)]
pub enum Buffer {
    Map = 1,
    List = 2,
    Secret = 3,
    Answer = 4,
    Store = 5,
}

// Named by what was turned away; `numbers_of` has the number, layer and place of each case.
#[derive(Clone, Copy, PartialEq, Eq, Debug)]
pub enum Refusal {
    BadSet,
    MessageTooLong,
    BufferLength { layer: Layer, buffer: Buffer },
    WatchFull,
    SlotNotUsed,
    ChallengeOutOfRange,
    KeyLength,
    // the first element that is no code, or the number of elements where only the pad is wrong
    KeyElement { index: usize },
    SignatureLength,
    // the byte that holds the lowest bit of the element
    Element { place: usize },
    // the last byte of the vector
    Pad { place: usize },
    NotAccepted,
    BundleHeader { place: usize },
    BundleLayout { item: usize },
    BundleItem { item: usize },
    SuiteLimit { label: u8 },
    TooFewElements { label: u8 },
    OutOfTurn { layer: Layer },
}

impl Layer {
    pub fn number(self) -> u8
        ensures { result ≡ layer_of self }
    {
        self as u8
    }
}

impl Buffer {
    pub fn place(self) -> usize
        ensures { result ≡ buffer_of self }
    {
        self as usize
    }
}

impl Refusal {
    // Number, layer and place. By a `match`: a case with fields has no discriminant, and its place stands in them.
    pub fn numbers(self) -> (u8, u8, usize)
        ensures { result ≡ numbers_of self }
    {
        match self {
            Refusal::BadSet => (1, 3, 0),
            Refusal::MessageTooLong => (2, 3, 0),
            Refusal::BufferLength { layer, buffer } => (3, layer.number(), buffer.place()),
            Refusal::WatchFull => (4, 4, 0),
            Refusal::SlotNotUsed => (5, 4, 0),
            Refusal::ChallengeOutOfRange => (6, 6, 0),
            Refusal::KeyLength => (7, 3, 0),
            Refusal::KeyElement { index } => (8, 1, index),
            Refusal::SignatureLength => (9, 3, 0),
            Refusal::Element { place } => (10, 1, place),
            Refusal::Pad { place } => (11, 1, place),
            Refusal::NotAccepted => (12, 3, 0),
            Refusal::BundleHeader { place } => (13, 5, place),
            Refusal::BundleLayout { item } => (14, 5, item),
            Refusal::BundleItem { item } => (15, 5, item),
            Refusal::SuiteLimit { label } => (16, 2, usize::from(label)),
            Refusal::TooFewElements { label } => (17, 2, usize::from(label)),
            Refusal::OutOfTurn { layer } => (18, layer.number(), 0),
        }
    }
}
