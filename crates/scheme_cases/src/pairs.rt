// The kit and the second signer side by side: public keys and signatures byte by byte, and what verification says of them.
use crate::Cases;
use crate::kit::Room;
use crate::stage::Stage;
use gf31::Gf31;
use keys::make_key;
use params::Set;
use std::io;
use suites::Named;

// The kit's public key is that of the stage.
fn same_key(tally: &mut Cases<'_>, stage: &Stage) -> io::Result<()> {
    let heap = tally.rt.alloc();
    let scheme = stage.scheme;
    let mut map = vec![in heap; 0xa5u8; Room::of(scheme.set).map]?;
    let mut secret = vec![in heap; 0xa5u8; 1024]?;
    let mut answer = vec![in heap; 0xa5u8; stage.key.len()]?;
    let made = make_key::<Gf31, Named>(
        scheme.set,
        &scheme.suite,
        map.as_mut_slice(),
        secret.as_mut_slice(),
        stage.secret.as_slice(),
        answer.as_mut_slice(),
    );
    let same = made.is_ok() && answer.as_slice() == stage.key.as_slice();
    stage.count(tally, "both signers: the public key", same)
}

// The kit's signature is that of the stage, in so much room.
fn same_signature(tally: &mut Cases<'_>, stage: &Stage, room: Room) -> io::Result<()> {
    let signed = stage.scheme.sign_in(
        tally.rt.alloc(),
        room,
        stage.secret.as_slice(),
        stage.message.as_slice(),
    )?;
    let same = signed.told.is_ok() && signed.answer.as_slice() == stage.sig.as_slice();
    stage.count(tally, "both signers: the signature", same)?;
    stage.count(tally, "both signers: the secret buffer", signed.clean)
}

pub fn compare(tally: &mut Cases<'_>, stage: &Stage) -> io::Result<()> {
    same_key(tally, stage)?;
    same_signature(tally, stage, Room::of(stage.scheme.set))?;
    let sig = stage.sig.as_slice();
    stage.expect(tally, "both signers: verification", sig, Ok(()))
}

// Buffers longer than is wanted are taken too.
fn in_more_room(tally: &mut Cases<'_>, stage: &Stage) -> io::Result<()> {
    let exact = Room::of(stage.scheme.set);
    let room = Room {
        map: exact.map.saturating_add(77),
        list: exact.list.saturating_add(1),
        secret: 1100,
        ..exact
    };
    same_signature(tally, stage, room)?;
    let told = stage.scheme.verify_in(
        tally.rt.alloc(),
        room,
        stage.key.as_slice(),
        stage.message.as_slice(),
        stage.sig.as_slice(),
    )?;
    stage.count(tally, "verification in more room", told.is_ok())
}

fn compare_on(tally: &mut Cases<'_>, set: Set) -> io::Result<()> {
    let heap = tally.rt.alloc();
    for suite in [Named::Bench, Named::Keccak] {
        for (start, length) in [(0u8, 0usize), (1, 1), (77, 40), (200, 300)] {
            let stage = Stage::of_patterns(heap, suite, set, start, length)?;
            compare(tally, &stage)?;
        }
        let stage = Stage::of_patterns(heap, suite, set, 9, 135)?;
        in_more_room(tally, &stage)?;
    }
    Ok(())
}

pub fn run_pairs(tally: &mut Cases<'_>) -> io::Result<()> {
    let heap = tally.rt.alloc();
    for (n, m, r) in [
        (1usize, 1usize, 1usize),
        (1, 1, 3),
        (2, 3, 2),
        (3, 1, 2),
        (5, 7, 4),
        (8, 8, 16),
        (13, 2, 5),
        (33, 17, 3),
        (64, 1, 2),
        (1, 64, 2),
        (64, 64, 1),
        (1, 1, 269),
    ] {
        compare_on(tally, Set { n, m, r })?;
    }
    // the longest message
    let set = Set { n: 2, m: 3, r: 2 };
    for suite in [Named::Bench, Named::Keccak] {
        let stage = Stage::of_patterns(heap, suite, set, 31, 65_536)?;
        compare(tally, &stage)?;
    }
    Ok(())
}
