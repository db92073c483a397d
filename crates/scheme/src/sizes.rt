// The sizes of the scheme: its limits, and the sections of a signature.
ghost use Rattle.std.specs.Prelude.{◌≡◌, ◌*◌, ◌≤◌, true};
ghost use Rattle.packing.specs.Packed.{width};
ghost use Rattle.params.specs.Sets.{good};
ghost use Rattle.scheme.specs.Verifying.{answers_length};

use packing::encoding::Encoding;
use params::{GoodSet, Set};
use wire::layout::Layout;

// The most bytes that a message has.
pub const MESSAGE_LIMIT: usize = 65_536;

// The most rounds that a set has, and the bytes that drawing a challenge for each of them reads.
pub const ROUNDS: usize = 269;

pub const CHALLENGES: usize = 366;

// The bytes of σ1, the first answers, and of the responses: what a set's `Layout` says, for callers that know the set to be lawful.
pub fn answers_len(encoding: Encoding, set: Set) -> usize
    requires { good set ≡ true }
    ensures value { result ≡ answers_length encoding.bits set }
    ensures few { result ≤ 60256 }
{
    let set = GoodSet { set };
    Layout { set, encoding }.answers_len()
}

pub fn responses_len(encoding: Encoding, set: Set) -> usize
    requires { good set ≡ true }
    ensures value { result ≡ set.r * width encoding.bits set.n }
    ensures few { result ≤ 60256 }
{
    let set = GoodSet { set };
    Layout { set, encoding }.responses_len()
}
