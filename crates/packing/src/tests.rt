// Packed vectors of five-bit elements by example, and what is refused.
use super::*;
use std::test::Fail;

const FIVE: Encoding = Encoding { bits: 5, order: 31 };

#[test]
fn packs_two(rt: HostRuntime) -> Result<(), Fail> {
    let mut out = [9u8; 2];
    pack(FIVE, &[1, 2], &mut out)?;
    assert_eq!(rt; out, [0x41, 0x00]);
    let mut back = [9u8; 2];
    unpack(FIVE, &out, &mut back)?;
    assert_eq!(rt; back, [1, 2]);
    Ok(())
}

#[test]
fn refuses_to_pack(rt: HostRuntime) {
    let mut out = [9u8; 2];
    assert_eq!(rt; pack(FIVE, &[1, 2, 3, 4], &mut out), Err(LENGTH));
    assert_eq!(rt; out, [0, 0]);
    let late = pack(FIVE, &[30, 0, 31], &mut out);
    assert_eq!(rt; late, Err(Refusal::Element { place: 1 }));
    assert_eq!(rt; out, [0, 0]);
}

#[test]
fn refuses_to_unpack(rt: HostRuntime) {
    let mut one = [9u8; 1];
    assert_eq!(rt;
        unpack(FIVE, &[0x1f], &mut one),
        Err(Refusal::Element { place: 0 })
    );
    assert_eq!(rt;
        unpack(FIVE, &[0x27], &mut one),
        Err(Refusal::Pad { place: 0 })
    );
    assert_eq!(rt;
        unpack(FIVE, &[0xff], &mut one),
        Err(Refusal::Element { place: 0 })
    );
    assert_eq!(rt; unpack(FIVE, &[], &mut one), Err(LENGTH));
    assert_eq!(rt; one, [0]);
    // the second element begins in byte 0, the third in byte 1
    let mut three = [9u8; 3];
    assert_eq!(rt;
        unpack(FIVE, &[0xe0, 0x03], &mut three),
        Err(Refusal::Element { place: 0 })
    );
    assert_eq!(rt;
        unpack(FIVE, &[0x00, 0x7c], &mut three),
        Err(Refusal::Element { place: 1 })
    );
    assert_eq!(rt;
        unpack(FIVE, &[0x00, 0x80], &mut three),
        Err(Refusal::Pad { place: 1 })
    );
    assert_eq!(rt; three, [0, 0, 0]);
}

#[test]
fn refuses_a_key(rt: HostRuntime) {
    let mut three = [9u8; 3];
    assert_eq!(rt;
        unpack_key(FIVE, &[0x00, 0x7c], &mut three),
        Err(Refusal::KeyElement { index: 2 })
    );
    assert_eq!(rt;
        unpack_key(FIVE, &[0x00, 0x80], &mut three),
        Err(Refusal::KeyElement { index: 3 })
    );
    assert_eq!(rt;
        unpack_key(FIVE, &[0x00, 0xfc], &mut three),
        Err(Refusal::KeyElement { index: 2 })
    );
    assert_eq!(rt; three, [0, 0, 0]);
}
