//! Rows and states made lane by lane.
ghost use Rattle.std.specs.Prelude.{◌≡◌, ℕ, ◌<◌, slice_index};
ghost use Rattle.keccak.specs.State.{lane, five as row, rows as state};

use crate::State;

/// The row whose lane x is `f(x)`.
pub fn five<F: Fn(usize) -> u64>(f: F) -> [u64; 5]
    requires { (x : ℕ) → x < 5 → F.pre f x }
    ensures whole { result ≡ row (λ x. slice_index result x) }
    ensures lanes { (x : ℕ) → x < 5 → F.post f x (slice_index result x) }
{
    [f(0), f(1), f(2), f(3), f(4)]
}

/// The state whose lane at x and y is `f(x, y)`.
// Written out: of `from_fn` in `from_fn` there is no proof, since the inner closure does not know that y is below 5.
pub fn rows<F: Fn(usize, usize) -> u64>(f: F) -> State
    requires { (x y : ℕ) → x < 5 → y < 5 → F.pre f x y }
    ensures whole { result ≡ state (λ x y. lane result x y) }
    ensures lanes { (x y : ℕ) → x < 5 → y < 5 → F.post f x y (lane result x y) }
{
    [
        [f(0, 0), f(1, 0), f(2, 0), f(3, 0), f(4, 0)],
        [f(0, 1), f(1, 1), f(2, 1), f(3, 1), f(4, 1)],
        [f(0, 2), f(1, 2), f(2, 2), f(3, 2), f(4, 2)],
        [f(0, 3), f(1, 3), f(2, 3), f(3, 3), f(4, 3)],
        [f(0, 4), f(1, 4), f(2, 4), f(3, 4), f(4, 4)],
    ]
}
