//! SHA3-256 and SHAKE128 (FIPS 202), of a message in one piece or in parts, without a copy of it.
//!
//!     let digest = sha3::sha3_256(b"abc");
//!     sha3::shake128(seed, &mut stream);
//!
//! What a hash reads and writes follows the lengths of its parts alone, as the code is written; no contract speaks of time.
//! Nothing clears the states of a call from the stack.
#![tactic(auto)]

ghost use Rattle.std.specs.Prelude.{◌≡◌, ◌∷◌, ◌++◌, length};
ghost use Rattle.sha3.specs.Fed.{said};
ghost use Rattle.sha3.specs.Hash.{sha3_256_of, shake128 as shake, PaddedSha3, PaddedShake, Sha3Bits, ShakeBits};

use crate::absorb::take_in;
use crate::function::Function;
use crate::message::Message;
use crate::squeeze::squeeze;

mod absorb;
mod function;
mod input;
mod message;
mod squeeze;

// SHA3-256 of a message in parts.
fn sha3_256_joint(message: Message<'_>) -> [u8; 32]
    ensures { result ≡ sha3_256_of (said message.entry) }
{
    let s = take_in(message, Function::SHA3_256);
    let mut digest = [0; 32];
    squeeze(s, Function::SHA3_256, &mut digest);
    digest
}

// SHAKE128 of a message in parts.
fn shake128_joint(message: Message<'_>, out: &mut [u8])
    ensures { out.new ≡ shake (said message.entry) (length out.old) }
{
    let s = take_in(message, Function::SHAKE128);
    squeeze(s, Function::SHAKE128, out);
}

/// SHA3-256 of a message.
pub fn sha3_256(message: &[u8]) -> [u8; 32]
    ensures digest { result ≡ sha3_256_of message.now }
    ensures padding { PaddedSha3 message.now }
    ensures bits { Sha3Bits message.now result }
{
    sha3_256_joint(Message::whole(message))
}

/// SHA3-256 of a label, a head and a tail, one after another.
pub fn sha3_256_parts(label: u8, head: &[u8], tail: &[u8]) -> [u8; 32]
    ensures { result ≡ sha3_256_of (label ∷ (head.now ++ tail.now)) }
{
    sha3_256_joint(Message::labelled(&[label], head, tail))
}

/// Fills `out` with the first bytes of SHAKE128 of a message.
pub fn shake128(message: &[u8], out: &mut [u8])
    ensures stream { out.new ≡ shake message.now (length out.old) }
    ensures padding { PaddedShake message.now }
    ensures bits { ShakeBits message.now out.new }
{
    shake128_joint(Message::whole(message), out);
}

/// Fills `out` with the first bytes of SHAKE128 of a label and a seed, one after another.
pub fn shake128_labelled(label: u8, seed: &[u8], out: &mut [u8])
    ensures { out.new ≡ shake (label ∷ seed.now) (length out.old) }
{
    shake128_joint(Message::labelled(&[label], seed, &[]), out);
}
