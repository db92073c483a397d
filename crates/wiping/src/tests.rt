// The guard and the look, at both widths.
use super::{Wiped, all_zero};

#[test]
fn bytes(rt: HostRuntime) {
    let mut items = [1u8, 0, 255];
    assert!(rt; !all_zero(&items));
    {
        let guard = Wiped { items: &mut items };
        guard.items[1] = 7;
    }
    assert_eq!(rt; items, [0, 0, 0]);
    assert!(rt; all_zero(&items));
}

#[test]
fn pairs_of_bytes(rt: HostRuntime) {
    let mut items = [0u16, 256];
    assert!(rt; !all_zero(&items));
    {
        let _guard = Wiped { items: &mut items };
    }
    assert_eq!(rt; items, [0, 0]);
    assert!(rt; all_zero(&items[0..0]));
}
