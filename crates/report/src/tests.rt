// The texts, by example.
use crate::compare::differing;
use crate::hex::Hex;
use crate::scan::{scan, spot_of};
use crate::words::Words;
use params::Set;
use refusal::Refusal;
use std::test::Fail;

// vectors of 1 byte each: t1 at 64, e1 at 65, the response at 66
const ONE: Set = Set { n: 1, m: 1, r: 1 };

#[test]
fn lawful(rt: HostRuntime) -> Result<(), Fail> {
    let text = format!(in rt.alloc(); "{}", scan(ONE, &[0u8; 99]))?;
    assert_eq!(rt; text.as_str(), "read 99 bytes: 1 rounds, 3 vectors\nlawful");
    Ok(())
}

#[test]
fn names_each_vector(rt: HostRuntime) -> Result<(), Fail> {
    let mut bytes = [0u8; 99];
    bytes[66] = 0x20;
    let text = format!(in rt.alloc(); "{}", scan(ONE, &bytes))?;
    assert_eq!(rt;
        text.as_str(),
        "read 99 bytes: 1 rounds, 3 vectors\nrefused 11 1 66\nround 0, response: the pad is not zero"
    );
    bytes[65] = 0x1f;
    let text = format!(in rt.alloc(); "{}", scan(ONE, &bytes))?;
    assert_eq!(rt;
        text.as_str(),
        "read 99 bytes: 1 rounds, 3 vectors\nrefused 10 1 65\nround 0, e1, element 0: 31 is no element"
    );
    bytes[64] = 0x3f;
    let text = format!(in rt.alloc(); "{}", scan(ONE, &bytes))?;
    assert_eq!(rt;
        text.as_str(),
        "read 99 bytes: 1 rounds, 3 vectors\nrefused 10 1 64\nround 0, t1, element 0: 31 is no element"
    );
    Ok(())
}

#[test]
fn names_no_vector(rt: HostRuntime) -> Result<(), Fail> {
    let text = format!(in rt.alloc(); "{}", scan(ONE, &[0u8; 98]))?;
    assert_eq!(rt; text.as_str(), "refused 9 3 0");
    let bad = Set { n: 0, m: 1, r: 1 };
    let text = format!(in rt.alloc(); "{}", scan(bad, &[0u8; 99]))?;
    assert_eq!(rt; text.as_str(), "refused 1 3 0");
    Ok(())
}

#[test]
fn words_and_hex(rt: HostRuntime) -> Result<(), Fail> {
    let text = format!(in rt.alloc(); "{}", Words(Refusal::KeyLength))?;
    assert_eq!(rt; text.as_str(), "the key has a wrong length");
    let text = format!(in rt.alloc(); "{}", Hex(&[0, 10, 255]))?;
    assert_eq!(rt; text.as_str(), "000aff");
    Ok(())
}

#[test]
fn words_of_a_refused_signature(rt: HostRuntime) -> Result<(), Fail> {
    let mut bytes = [0u8; 99];
    bytes[65] = 0x1f;
    let Some(spot) = spot_of(ONE, &bytes, Refusal::Element { place: 65 }) else {
        assert!(rt; false);
        return Ok(());
    };
    let text = format!(in rt.alloc(); "{spot}")?;
    assert_eq!(rt; text.as_str(), "round 0, e1, element 0: 31 is no element");
    assert!(rt; spot_of(ONE, &bytes, Refusal::NotAccepted).is_none());
    Ok(())
}

#[test]
fn places_that_differ(rt: HostRuntime) {
    assert_eq!(rt; differing(&[1, 2, 3], &[1, 5, 4]), 2);
    assert_eq!(rt; differing(&[1, 2, 3], &[1]), 0);
    assert_eq!(rt; differing(&[], &[1]), 0);
}
