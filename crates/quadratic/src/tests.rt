// The map and its polar form over the field of 31, on examples worked out by hand.
use super::Map;
use gf31::Gf31;

// 8·9·9 + 8·9 = 720 = 23·31 + 7
#[test]
fn one_variable(rt: HostRuntime) {
    let mut out = [0u8; 1];
    Map::<Gf31>::new(1, 1, &[8, 8]).evaluate(&[9], &mut out);
    assert_eq!(rt; out[0], 7);
}

// At (3, 5): 1·9 + 2·15 + 3·25 + 4·3 + 5·5 = 151 = 4·31 + 27, and 6·9 + 7·15 + 8·25 + 9·3 + 10·5 = 436 = 14·31 + 2.
#[test]
fn two_equations(rt: HostRuntime) {
    let mut out = [0u8; 2];
    let map = Map::<Gf31>::new(2, 2, &[1, 2, 3, 4, 5, 6, 7, 8, 9, 10]);
    map.evaluate(&[3, 5], &mut out);
    assert_eq!(rt; out, [27, 2]);
}

// F(10, 16) - F(3, 5) - F(7, 11) = (6, 19) - (27, 2) - (29, 21)
#[test]
fn polar(rt: HostRuntime) {
    let mut out = [0u8; 2];
    let map = Map::<Gf31>::new(2, 2, &[1, 2, 3, 4, 5, 6, 7, 8, 9, 10]);
    map.polar(&[3, 5], &[7, 11], &mut out);
    assert_eq!(rt; out, [12, 27]);
}
