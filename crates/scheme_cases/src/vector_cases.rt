// Refusals 10 and 11 in every vector of the first and the last round, and of two faults the one at the earlier byte.
use crate::Cases;
use crate::spoiling::{Packed, vectors_of};
use crate::stage::Stage;
use params::Set;
use std::io;
use suites::Named;

// Every element and every pad bit of one vector, alone and both at once.
fn spoil_vector(tally: &mut Cases<'_>, stage: &Stage, vector: Packed) -> io::Result<()> {
    for i in 0..vector.count {
        let mut sig = stage.sig.clone()?;
        vector.put_31(sig.as_mut_slice(), i);
        let want = Err((10, 1, vector.place_of(i)));
        stage.expect(tally, "a vector: 31", sig.as_slice(), want)?;
    }
    for t in 0..vector.pads() {
        let mut sig = stage.sig.clone()?;
        vector.put_pad(sig.as_mut_slice(), t);
        let want = Err((11, 1, vector.last()));
        stage.expect(tally, "a vector: pad", sig.as_slice(), want)?;
        let last = vector.count.saturating_sub(1);
        vector.put_31(sig.as_mut_slice(), last);
        let want = Err((10, 1, vector.place_of(last)));
        stage.expect(tally, "a vector: 31 before the pad", sig.as_slice(), want)?;
    }
    Ok(())
}

// Two faults in two vectors, the earlier given first.
fn spoil_two(tally: &mut Cases<'_>, stage: &Stage, early: Packed, late: Packed) -> io::Result<()> {
    let mut sig = stage.sig.clone()?;
    late.put_31(sig.as_mut_slice(), 0);
    if early.pads() != 0 {
        early.put_pad(sig.as_mut_slice(), 0);
        let want = Err((11, 1, early.last()));
        stage.expect(tally, "vectors: a pad before a 31", sig.as_slice(), want)?;
    }
    early.put_31(sig.as_mut_slice(), 0);
    if late.pads() != 0 {
        late.put_pad(sig.as_mut_slice(), 0);
    }
    let want = Err((10, 1, early.at));
    stage.expect(tally, "vectors: the earlier 31", sig.as_slice(), want)
}

fn spoil_stage(tally: &mut Cases<'_>, stage: &Stage) -> io::Result<()> {
    let set = stage.scheme.set;
    let last = set.r.saturating_sub(1);
    for i in [0, last] {
        let [t1, e1, response] = vectors_of(set, i);
        for vector in [t1, e1, response] {
            spoil_vector(tally, stage, vector)?;
        }
        spoil_two(tally, stage, t1, e1)?;
        spoil_two(tally, stage, e1, response)?;
    }
    let [t1, _, response] = vectors_of(set, 0);
    let [_, e1, _] = vectors_of(set, last);
    spoil_two(tally, stage, t1, e1)?;
    spoil_two(tally, stage, e1, response)
}

pub fn run_vectors(tally: &mut Cases<'_>) -> io::Result<()> {
    let heap = tally.rt.alloc();
    for (n, m, r) in [
        (1usize, 1usize, 1usize),
        (2, 3, 2),
        (3, 1, 2),
        (5, 7, 4),
        (8, 8, 16),
        (13, 2, 5),
        (6, 64, 2),
    ] {
        let stage = Stage::of_patterns(heap, Named::Bench, Set { n, m, r }, 3, 10)?;
        spoil_stage(tally, &stage)?;
    }
    let set = Set { n: 4, m: 9, r: 269 };
    let stage = Stage::of_patterns(heap, Named::Keccak, set, 5, 10)?;
    spoil_stage(tally, &stage)
}
