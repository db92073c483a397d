// Every vector of a small signature, damaged in turn.
use super::*;

const FIVE: Encoding = Encoding { bits: 5, order: 31 };

// three variables, one equation, two rounds: vectors of 2, 1, 2, 1, 2 and 2 bytes from byte 64 on
const SMALL: Set = Set { n: 3, m: 1, r: 2 };

#[test]
fn refuses_set_and_length(rt: HostRuntime) {
    let zeros = [0u8; 138];
    assert_eq!(rt; check_vectors(FIVE, SMALL, &zeros), Ok(()));
    assert_eq!(rt;
        check_vectors(FIVE, SMALL, &zeros[1..]),
        Err(Refusal::SignatureLength)
    );
    let bad = Set { n: 65, m: 1, r: 2 };
    assert_eq!(rt; check_vectors(FIVE, bad, &zeros), Err(Refusal::BadSet));
    let many = Set { n: 3, m: 1, r: 270 };
    assert_eq!(rt; check_vectors(FIVE, many, &zeros), Err(Refusal::BadSet));
}

#[test]
fn reads_every_round(rt: HostRuntime) {
    for at in 64..74 {
        let mut bytes = [0u8; 138];
        bytes[at] = 0x1f;
        let verdict = check_vectors(FIVE, SMALL, &bytes);
        // the low bits of a second byte are the high bits of the second element and the low ones of the third
        let lawful = at == 65 || at == 68 || at == 71 || at == 73;
        if lawful {
            assert_eq!(rt; verdict, Ok(()));
        } else {
            assert_eq!(rt; verdict, Err(Refusal::Element { place: at }));
        }
    }
}

#[test]
fn tells_the_earlier(rt: HostRuntime) {
    let mut bytes = [0u8; 138];
    bytes[73] = 0x80;
    assert_eq!(rt;
        check_vectors(FIVE, SMALL, &bytes),
        Err(Refusal::Pad { place: 73 })
    );
    bytes[73] = 0xfc;
    assert_eq!(rt;
        check_vectors(FIVE, SMALL, &bytes),
        Err(Refusal::Element { place: 73 })
    );
    bytes[69] = 0x20;
    assert_eq!(rt;
        check_vectors(FIVE, SMALL, &bytes),
        Err(Refusal::Pad { place: 69 })
    );
}
