// How far two signatures differ.
ghost use Rattle.std.specs.Prelude.{◌≡◌};
ghost use Rattle.report.specs.Compare.{differing as places};

// At how many places, of those that both have, the bytes differ.
pub fn differing(a: &[u8], b: &[u8]) -> usize
    ensures { result ≡ places a.now b.now }
{
    a.iter().zip(b).filter(|(x, y)| x != y).count()
}
