// The report of a scan: every vector of a signature, read by the check that verification makes.
ghost use Rattle.refusal.specs.Numbers.{numbers_of};
ghost use Rattle.gf31.specs.Modulo.{coding31};
ghost use Rattle.report.specs.Scan.{Reports, Spotted};

use field::Field;
use gf31::Gf31;
use packing::bits::inspect;
use packing::encoding::Encoding;
use packing::fault::Fault;
use params::Set;
use refusal::Refusal;
use std::fmt;
use wire::check_vectors;
use wire::locate::{Vector, vector_at};

// What was read, the verdict, and where a faulty vector lies.
#[derive(Clone, Copy)]
pub struct Report {
    pub set: Set,
    pub bytes: usize,
    pub verdict: Result<(), Refusal>,
    pub spot: Option<Spot>,
}

// A fault of a vector.
#[derive(Clone, Copy)]
pub struct Spot {
    pub vector: Vector,
    pub fault: Fault,
}

// What is wrong with the vector that holds byte `place`.
fn fault_at(encoding: Encoding, set: Set, signature: &[u8], place: usize) -> Option<Spot>
    ensures { Spotted encoding.order encoding.bits set signature.now place result }
{
    let vector = vector_at(encoding, set, place)?;
    let end = vector.at.checked_add(encoding.width(vector.elements))?;
    let packed = signature.get(vector.at..end)?;
    let fault = inspect(encoding, vector.elements, packed).err()?;
    Some(Spot { vector, fault })
}

// Where a refusal of a signature over the field of 31 elements lies, if it is for a vector.
pub fn spot_of(set: Set, signature: &[u8], refusal: Refusal) -> Option<Spot>
    ensures { Spotted coding31.q coding31.bits set signature.now (numbers_of refusal).2 result }
{
    let (Refusal::Element { place } | Refusal::Pad { place }) = refusal else {
        return None;
    };
    fault_at(Gf31::encoding(), set, signature, place)
}

// Reads a signature over the field of 31 elements.
pub fn scan(set: Set, signature: &[u8]) -> Report
    ensures { Reports set signature.now result }
{
    let verdict = check_vectors(Gf31::encoding(), set, signature);
    let bytes = signature.len();
    let spot = verdict
        .err()
        .and_then(|refusal| spot_of(set, signature, refusal));
    Report {
        set,
        bytes,
        verdict,
        spot,
    }
}

impl fmt::Display for Spot {
    fn fmt<W: fmt::Write>(&self, f: &mut fmt::Formatter<W>) -> fmt::Result {
        let round = self.vector.round;
        let name = self.vector.kind;
        match self.fault {
            Fault::Element(i) => write!(f, "round {round}, {name}, element {i}: 31 is no element"),
            Fault::Pad => write!(f, "round {round}, {name}: the pad is not zero"),
        }
    }
}

impl fmt::Display for Report {
    fn fmt<W: fmt::Write>(&self, f: &mut fmt::Formatter<W>) -> fmt::Result {
        let bytes = self.bytes;
        let rounds = self.set.r;
        let vectors = rounds.saturating_mul(3);
        match (self.verdict, self.spot) {
            (Ok(()), _) => write!(
                f,
                "read {bytes} bytes: {rounds} rounds, {vectors} vectors\nlawful"
            ),
            (Err(refusal), Some(spot)) => write!(
                f,
                "read {bytes} bytes: {rounds} rounds, {vectors} vectors\n{refusal}\n{spot}"
            ),
            (Err(refusal), None) => write!(f, "{refusal}"),
        }
    }
}
