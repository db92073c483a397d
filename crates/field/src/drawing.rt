// How much of a stream drawing elements takes.
ghost use Rattle.std.specs.Prelude.{◌≡◌, ◌<◌, ◌^◌};
ghost use Rattle.field.specs.Coding.{reads};

// How many bytes of a stream drawing `count` elements reads.
pub fn drawing_len(count: usize) -> usize
    requires { reads count < 2 ^ 64 }
    ensures { result ≡ reads count }
{
    count + count / 8 + 64
}
