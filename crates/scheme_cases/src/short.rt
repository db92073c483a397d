// Drawings that fall short after the rounds: label 11, in signing and in verification.
use crate::Cases;
use crate::example::{BENCH, EXAMPLE, SMALL};
use crate::kit::Room;
use std::io;
use tally::all;

// A secret key under which the seed h1 of the set (1, 1, 1) and no message gives nothing but 31: K is 0E 0B 0F and then 05 over and over.
fn starved_key(s: u8) -> [u8; 64] {
    let mut key = [5u8; 64];
    key[..3].copy_from_slice(&[14, 11, 15]);
    key[32..].fill(s);
    key
}

fn sign_starved(tally: &mut Cases<'_>, s: u8, label: usize) -> io::Result<()> {
    let signed = BENCH.sign_in(tally.rt.alloc(), Room::of(SMALL), &starved_key(s), &[])?;
    tally.count(
        "signing: label 11 after the others",
        signed.told == Err((17, 2, label)),
    )?;
    tally.count("signing: label 11, the secret buffer", signed.clean)?;
    let zeros = all(signed.answer.as_slice(), 0);
    tally.count("signing: label 11, the answer", zeros)
}

// A public key S ‖ v, with S of one byte over and over.
fn key_of(s: u8, v: u8) -> [u8; 33] {
    let mut key = [s; 33];
    key[32] = v;
    key
}

// With R of zeros D is 04 throughout; with σ0 of 0B then h1 is 14, and label 11 gives 31.
fn verify_starved(tally: &mut Cases<'_>, s: u8, label: usize) -> io::Result<()> {
    let mut sig = [0u8; 99];
    sig[32..64].fill(0x0b);
    let told = BENCH.verify_in(tally.rt.alloc(), Room::of(SMALL), &key_of(s, 7), &[], &sig)?;
    tally.count(
        "verification: label 11 after 8",
        told == Err((17, 2, label)),
    )
}

// The drawing of the map comes after the vectors, and before the digest of the list.
fn verify_unmapped(tally: &mut Cases<'_>) -> io::Result<()> {
    for (name, byte, want) in [
        ("verification: label 8", EXAMPLE[66], Err((17, 2, 8))),
        ("verification: 10 before 17", 0x1f, Err((10, 1, 66))),
        ("verification: 11 before 17", 0x2a, Err((11, 1, 66))),
    ] {
        let mut sig = *EXAMPLE;
        sig[66] = byte;
        let key = key_of(0xf7, 7);
        let told = BENCH.verify_in(tally.rt.alloc(), Room::of(SMALL), &key, &[], &sig)?;
        tally.count(name, told == want)?;
    }
    Ok(())
}

pub fn run_short(tally: &mut Cases<'_>) -> io::Result<()> {
    sign_starved(tally, 0, 11)?;
    sign_starved(tally, 0xf7, 8)?;
    verify_starved(tally, 0, 11)?;
    verify_starved(tally, 0xf7, 8)?;
    verify_unmapped(tally)
}
