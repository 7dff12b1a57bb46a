use std::test::*;
use word_monoid::{Count, Greatest, Signed, WordMonoid};

#[test]
fn sums_wrap_round(rt: HostRuntime) {
    let top = (1 << 62) - 1;
    assert_eq!(rt; Count.join(top, 2), 1);
    let least = -(1 << 61);
    assert_eq!(rt; Signed.join(least, -1), -(least + 1));
    assert_eq!(rt; Signed.of_word(Signed.word(-3)), -3);
    assert_eq!(rt; Signed.join(Signed.unit(), -3), -3);
}

#[test]
fn which_values_are_items(rt: HostRuntime) {
    assert!(rt; Count.is_item((1 << 62) - 1));
    assert!(rt; !Count.is_item(1 << 62));
    assert!(rt; Signed.is_item(-(1 << 61)));
    assert!(rt; !Signed.is_item(1 << 61));
    assert!(rt; !Greatest.is_item(1 << 62));
    assert_eq!(rt; Greatest.join(3, 7), 7);
}
