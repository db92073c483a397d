// The labels of digests and streams, each in one place.
// Bytes and no enum: a label is a byte of what is hashed, and a suite answers for every byte.

// The commitments of a round.
pub const COMMIT_0: u8 = 0;

pub const COMMIT_1: u8 = 1;

// σ0, the digest of the commitment list.
pub const LIST: u8 = 2;

// R and D, from the message.
pub const RANDOMIZER: u8 = 3;

pub const MESSAGE: u8 = 4;

// h1 and h2, the seeds of the challenges.
pub const FIRST_HASH: u8 = 5;

pub const SECOND_HASH: u8 = 6;

// The seed of a round, and the elements drawn from it.
pub const ROUND_SEED: u8 = 7;

pub const ROUND: u8 = 10;

// The map's coefficients, and the secret vector.
pub use keys::{LABEL_MAP as MAP, LABEL_SECRET as SECRET};

// The challenges α, and the bits.
pub const ALPHAS: u8 = 11;

pub const BITS: u8 = 12;
