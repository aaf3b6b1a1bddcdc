//! Each call once, that on modes for each mode.
use super::*;
use std::test::*;

#[test]
fn the_isdr_is_on_port_0_or_on_each_port(rt: HostRuntime) {
    for (mode, elsewhere) in [
        (PortMode::A1, false),
        (PortMode::A2, false),
        (PortMode::B, true),
    ] {
        assert!(rt; mode.has_isdr(0));
        assert_eq!(rt; mode.has_isdr(1), elsewhere);
        assert_eq!(rt; mode.has_isdr(7), elsewhere);
    }
}

#[test]
fn a_profile_is_bound_displaces_another_and_is_taken_away(rt: HostRuntime) {
    let mut ports = Ports {
        mode: PortMode::A1,
        count: 3,
        on: PortList::from_slice(&[None, Some(1100), None]),
    };
    assert_eq!(rt; ports.bind(1101, 1), Some(1100));
    assert_eq!(rt; ports.bind(1100, 2), None);
    assert_eq!(rt;
        ports.copy().on.as_slice(),
        [None, Some(1101), Some(1100)].as_slice()
    );
    ports.unbind(1101);
    assert_eq!(rt; ports.on.as_slice(), [None, None, Some(1100)].as_slice());
}

#[test]
fn a_target_is_named_lowest_or_where_the_request_came(rt: HostRuntime) {
    let free = PortList::from_slice(&[None, Some(1100), None, None]);
    let taken = PortList::from_slice(&[None, Some(1100), Some(1101), Some(1102)]);
    for (mode, on, given, target) in [
        (PortMode::A1, &free, Some(1), Ok(1)),
        (PortMode::A1, &free, Some(3), Ok(3)),
        (PortMode::A1, &free, Some(0), Err(TargetFault::NotUsable)),
        (PortMode::A1, &free, Some(4), Err(TargetFault::NotUsable)),
        (PortMode::A1, &free, None, Err(TargetFault::NotUsable)),
        (PortMode::A2, &free, None, Ok(2)),
        (PortMode::A2, &free, Some(3), Ok(2)),
        (PortMode::A2, &taken, None, Err(TargetFault::NoneFree)),
        (PortMode::B, &free, None, Ok(1)),
        (PortMode::B, &free, Some(3), Ok(1)),
    ] {
        let ports = Ports {
            mode,
            count: 4,
            on: on.copy(),
        };
        assert!(rt; ports.on.len() == 4);
        assert_eq!(rt; ports.target(1, given), target);
    }
    assert_eq!(rt; TargetFault::NotUsable.number(), 7);
    assert_eq!(rt; TargetFault::NoneFree.number(), 9);
}

#[test]
fn a_profile_is_found_on_its_port(rt: HostRuntime) {
    let ports = Ports {
        mode: PortMode::B,
        count: 3,
        on: PortList::from_slice(&[None, None, Some(1100)]),
    };
    assert_eq!(rt; ports.port_of(1100), Some(2));
    assert_eq!(rt; ports.port_of(1101), None);
}
