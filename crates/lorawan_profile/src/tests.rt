use crate::{PortMeaning, meaning, sending};
use schc_ids::{FragMode, Role};

/// What comes by the port, at the device and at the gateway.
fn at_both(port: u8) -> (PortMeaning, PortMeaning) {
    (meaning(Role::Device, port), meaning(Role::Gateway, port))
}

#[test]
fn ports_mean_what_the_table_says(rt: HostRuntime) {
    let on_error = FragMode::AckOnError.params();
    let always = FragMode::AckAlways.params();
    let none = FragMode::NoAck.params();
    let unknown = PortMeaning::Unknown;
    let whole = PortMeaning::Whole;
    assert_eq!(rt;
        at_both(20),
        (
            PortMeaning::Answers(on_error),
            PortMeaning::Fragments(on_error)
        )
    );
    assert_eq!(rt;
        at_both(21),
        (PortMeaning::Fragments(always), PortMeaning::Answers(always))
    );
    assert_eq!(rt; at_both(222), (unknown, PortMeaning::Fragments(none)));
    assert_eq!(rt; at_both(223), (PortMeaning::Fragments(none), unknown));
    for port in [0, 224, 255] {
        assert_eq!(rt; at_both(port), (unknown, unknown));
    }
    for port in [1, 19, 22, 221] {
        assert_eq!(rt; at_both(port), (whole, whole));
    }
    assert_eq!(rt; sending(Role::Device, true), (20, on_error));
    assert_eq!(rt; sending(Role::Gateway, true), (21, always));
    assert_eq!(rt; sending(Role::Device, false), (222, none));
    assert_eq!(rt; sending(Role::Gateway, false), (223, none));
}
