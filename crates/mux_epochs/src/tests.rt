use crate::admit;
use mux_spec::{Admit, Gate};

const GATE: Gate = Gate { boot: 3, epoch: 9 };

#[test]
fn the_first_test_that_applies_decides(rt: HostRuntime) {
    let cases = [
        (8, 2, Admit::WrongBoot(3)),
        (10, 2, Admit::WrongBoot(3)),
        (9, 4, Admit::WrongBoot(3)),
        (8, 3, Admit::OldEpoch(9)),
        (0, 3, Admit::OldEpoch(9)),
        (10, 3, Admit::Raise(10)),
        (u64::MAX, 3, Admit::Raise(u64::MAX)),
        (9, 3, Admit::Yes),
    ];
    for (epoch, boot, expected) in cases {
        assert_eq!(rt; admit(&GATE, epoch, boot), expected);
    }
}
