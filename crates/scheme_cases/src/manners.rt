// Signers that sign wrongly in one way: what verification says, and what the second signer says.
use crate::Cases;
use crate::stage::{Stage, pattern};
use params::Set;
use second::manner::{Manner, Vector};
use std::io;
use suites::Named;
use tally::Told;

// What is told of a signature of that manner; both verdicts agree.
fn told_of(tally: &mut Cases<'_>, stage: &Stage, manner: Manner) -> io::Result<Told> {
    let sig = stage.sign_as(tally.rt.alloc(), manner)?;
    stage.told(tally, "a wrong signer: both verdicts", sig.as_slice())
}

// A 31 in place of a 0, and a set pad bit, in each vector of a round.
fn wrong_vectors(tally: &mut Cases<'_>, stage: &Stage, round: usize) -> io::Result<()> {
    let Set { n, m, .. } = stage.scheme.set;
    for (vector, count) in [(Vector::T1, n), (Vector::E1, m), (Vector::Response, n)] {
        let told = told_of(tally, stage, Manner::ThirtyOne { round, vector })?;
        stage.count(tally, "a wrong signer: 31", matches!(told, Err((10, ..))))?;
        if count % 8 != 0 {
            let told = told_of(tally, stage, Manner::PadBit { round, vector })?;
            stage.count(tally, "a wrong signer: pad", matches!(told, Err((11, ..))))?;
        }
    }
    Ok(())
}

// One thing wrong that only the digests tell.
fn not_accepted(
    tally: &mut Cases<'_>,
    stage: &Stage,
    name: &str,
    manner: Manner,
) -> io::Result<()> {
    let told = told_of(tally, stage, manner)?;
    stage.count(tally, name, matches!(told, Err((12, ..))))
}

// One part of a round taken from elsewhere.
fn wrong_parts(tally: &mut Cases<'_>, stage: &Stage, round: usize) -> io::Result<()> {
    let manner = Manner::SwappedCommitment { round };
    not_accepted(tally, stage, "a wrong signer: swapped commitment", manner)?;
    let manner = Manner::AlphaOfNext { round };
    let name = "a wrong signer: challenge of the next";
    not_accepted(tally, stage, name, manner)
}

fn wrong_wholes(tally: &mut Cases<'_>, stage: &Stage) -> io::Result<()> {
    let name = "a wrong signer: copied round";
    not_accepted(tally, stage, name, Manner::CopiedRound)?;
    // the commitments stand where vectors are read: most often an element of them is 31
    let told = told_of(tally, stage, Manner::OtherOrder)?;
    let good = matches!(told, Err((10..=12, ..)));
    stage.count(tally, "a wrong signer: other order", good)?;
    for label in [0u8, 1, 2, 4, 5, 6] {
        let manner = Manner::WrongLabel { label };
        not_accepted(tally, stage, "a wrong signer: label", manner)?;
    }
    Ok(())
}

// What no verification can see: another R, and rounds drawn with other seeds. Such a signature is accepted, and is not the one of the scheme.
fn unseen(tally: &mut Cases<'_>, stage: &Stage, manner: Manner) -> io::Result<()> {
    let sig = stage.sign_as(tally.rt.alloc(), manner)?;
    let other = sig.as_slice() != stage.sig.as_slice();
    stage.count(tally, "an unseen manner: another signature", other)?;
    stage.expect(tally, "an unseen manner: accepted", sig.as_slice(), Ok(()))
}

fn run_on(tally: &mut Cases<'_>, stage: &Stage) -> io::Result<()> {
    let rounds = stage.scheme.set.r;
    let last = rounds.saturating_sub(1);
    for round in [0, rounds / 2, last] {
        wrong_vectors(tally, stage, round)?;
    }
    wrong_parts(tally, stage, 0)?;
    wrong_parts(tally, stage, last.saturating_sub(1))?;
    wrong_wholes(tally, stage)?;
    for manner in [
        Manner::WrongLabel { label: 3 },
        Manner::WrongLabel { label: 7 },
        Manner::ReusedSeed,
        Manner::ShortIndex,
    ] {
        unseen(tally, stage, manner)?;
    }
    Ok(())
}

pub fn run_manners(tally: &mut Cases<'_>) -> io::Result<()> {
    let heap = tally.rt.alloc();
    for (n, m, r) in [
        (5usize, 7usize, 8usize),
        (8, 8, 16),
        (9, 16, 7),
        (3, 2, 269),
    ] {
        let stage = Stage::of_patterns(heap, Named::Keccak, Set { n, m, r }, 33, 50)?;
        run_on(tally, &stage)?;
    }
    // the worked example, also in the other order: its commitment begins with a lawful vector
    let secret = pattern(heap, 0, 0, 64)?;
    let set = Set { n: 1, m: 1, r: 1 };
    let stage = Stage::new(heap, Named::Bench, set, secret, Vec::new(heap))?;
    wrong_vectors(tally, &stage, 0)?;
    let told = told_of(tally, &stage, Manner::OtherOrder)?;
    tally.count(
        "the example in the other order",
        matches!(told, Err((12, ..))),
    )
}
