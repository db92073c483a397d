// What the scheme asks of a suite, within the limits of every suite: digests, streams and drawings.
ghost use Rattle.std.specs.Prelude.{◌≡◌, ◌+◌, ◌≤◌, ◌++◌, length, take, Ok};
ghost use Rattle.refusal.specs.Outcome.{told};
ghost use Rattle.field.specs.Coding.{reads};
ghost use Rattle.suite.specs.Calls.{first};
ghost use Rattle.suite.specs.Drawn.{drawn, Elements};
ghost use Rattle.scheme.specs.Rounds.{taken};

use field::Field;
use refusal::Refusal;
use suite::Suite;
use suite::drawing::draw;

// d(label, head ‖ tail): the suite's own call, as a function.
pub fn hash<S: Suite>(suite: &S, label: u8, head: &[u8], tail: &[u8]) -> [u8; 32]
    requires { length head.now + length tail.now ≤ 131072 }
    ensures { result ≡ (S.Suite.meaning suite.now).d label (head.now ++ tail.now) }
{
    suite.digest_within(label, head, tail)
}

// The first bytes of a stream, likewise.
pub fn fill<S: Suite>(suite: &S, label: u8, seed: &[u8; 32], out: &mut [u8])
    requires { length out.old ≤ 262144 }
    ensures { out.new ≡ first ((S.Suite.meaning suite.now).e label seed.now) (length out.old) }
{
    suite.stream_within(label, seed, out);
}

// Draws `count` elements into the front of a buffer that has room for the drawing; refused where the stream gives too few. With the
// room known, no buffer and no limit can be refused: said once for the six drawings of the scheme.
pub fn draw_into<F: Field, S: Suite>(
    suite: &S,
    label: u8,
    seed: &[u8; 32],
    buffer: &mut [u8],
    count: usize,
) -> Result<(), Refusal>
    requires few { count ≤ 137216 }
    requires room { reads count ≤ length buffer.old }
    ensures answer { result ≡ told (drawn F.Field.coding (S.Suite.meaning suite.now) label seed.now count) }
    ensures front { result ≡ Ok tt → take count buffer.new ≡ taken F.Field.coding (S.Suite.meaning suite.now) label seed.now count }
    ensures elements { result ≡ Ok tt → Elements F.Field.coding.q count (take count buffer.new) }
{
    draw::<F, S>(suite, label, seed, buffer, count)
}
