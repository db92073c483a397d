// The quadratic map and its polar form over the field of 31, for C.
ghost use Rattle.std.specs.Prelude.{◌≡◌, T, length};
ghost use Rattle.field.specs.Codes.{Codes};
ghost use Rattle.export.specs.Calls.{status_of, bytes_of};
ghost use Rattle.export.specs.Maps.{coded as coded_of, fits as fits_of, map_call, polar_call};

use gf31::Gf31;
use quadratic::Map;

// Whether every entry is an element. It reads on behind one that is none: compilers turn this form into wide comparisons.
fn coded(v: &[u8]) -> bool
    ensures value { result ≡ coded_of v.now }
    ensures codes { T result → Codes 31 v.now }
{
    v.iter().fold(true, |lawful, x| lawful & (*x < 31))
}

// Whether m equations in n variables have so many coefficients.
fn fits(coefficients: usize, n: usize, m: usize) -> bool
    ensures { result ≡ fits_of coefficients n m }
{
    n <= 64 && m <= 64 && coefficients == m * (n * (n + 1) / 2 + n)
}

/// F(x), in as many variables as `x` has entries and as many equations as `out` has places. The coefficients stand equation by
/// equation: a(i,j) for i from 0 and j from i upward, and then b(i). Status 1, and zeros in `out`, unless there are at most 64 of
/// both, the number of coefficients fits, and all entries are below 31.
pub fn beltscarp_map(coefficients: &[u8], x: &[u8], out: &mut [u8]) -> u32
    ensures status { result ≡ status_of (map_call coefficients.now x.now (length out.old)) }
    ensures value { out.new ≡ bytes_of (length out.old) (map_call coefficients.now x.now (length out.old)) }
{
    if fits(coefficients.len(), x.len(), out.len()) && coded(coefficients) && coded(x) {
        Map::<Gf31>::new(x.len(), out.len(), coefficients).evaluate(x, out);
        0
    } else {
        out.fill(0);
        1
    }
}

/// G(x, y) = F(x + y) - F(x) - F(y), refused as F is, and where `y` has not as many entries as `x`.
pub fn beltscarp_polar(coefficients: &[u8], x: &[u8], y: &[u8], out: &mut [u8]) -> u32
    ensures status { result ≡ status_of (polar_call coefficients.now x.now y.now (length out.old)) }
    ensures value { out.new ≡ bytes_of (length out.old) (polar_call coefficients.now x.now y.now (length out.old)) }
{
    if fits(coefficients.len(), x.len(), out.len())
        && y.len() == x.len()
        && coded(coefficients)
        && coded(x)
        && coded(y)
    {
        Map::<Gf31>::new(x.len(), out.len(), coefficients).polar(x, y, out);
        0
    } else {
        out.fill(0);
        1
    }
}
