// The quadratic map and its polar form over the field of 31, as C calls them.
ghost use Rattle.std.specs.Prelude.{◌≡◌, length};
ghost use Rattle.export.specs.Calls.{status_of, bytes_of};
ghost use Rattle.export.specs.Maps.{map_call, polar_call};

/// `beltscarp_map` of the library.
#[unsafe(no_mangle)]
pub extern "C" fn beltscarp_map(coefficients: &[u8], x: &[u8], out: &mut [u8]) -> u32
    ensures status { result ≡ status_of (map_call coefficients.now x.now (length out.old)) }
    ensures value { out.new ≡ bytes_of (length out.old) (map_call coefficients.now x.now (length out.old)) }
{
    export::maps::beltscarp_map(coefficients, x, out)
}

/// `beltscarp_polar` of the library.
#[unsafe(no_mangle)]
pub extern "C" fn beltscarp_polar(coefficients: &[u8], x: &[u8], y: &[u8], out: &mut [u8]) -> u32
    ensures status { result ≡ status_of (polar_call coefficients.now x.now y.now (length out.old)) }
    ensures value { out.new ≡ bytes_of (length out.old) (polar_call coefficients.now x.now y.now (length out.old)) }
{
    export::maps::beltscarp_polar(coefficients, x, y, out)
}
