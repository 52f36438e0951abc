use match_expr::Primitive;
use primitives::{Packet, Prim_, valid};
use service_packet::Service;
use std::alloc::Global;
use std::test::Fail;

/// A SYN of a new connection from 10.0.0.1 to 10.0.0.2, port 22, whose interfaces have empty names.
fn syn(alloc: Global) -> Packet {
    let service = Service {
        proto: 6,
        sport: 40000,
        dport: 22,
    };
    service.packet(alloc, 0x0A00_0001, 0x0A00_0002)
}

#[test]
fn a_service_opens_with_syn_where_it_is_tcp(rt: HostRuntime) -> Result<(), Fail> {
    let p = syn(rt.alloc());
    assert_eq!(rt; [p.src, p.dst], [0x0A00_0001, 0x0A00_0002]);
    assert_eq!(rt; [p.sport, p.dport], [40000, 22]);
    let udp = Service {
        proto: 17,
        sport: 1,
        dport: 53,
    };
    let q = udp.packet(rt.alloc(), 1, 2);
    assert_eq!(rt;
        [p.proto, p.flags, p.state, q.proto, q.flags],
        [6, 2, 1, 17, 0]
    );
    Ok(())
}

#[test]
fn a_packet_is_valid_by_its_ranges(rt: HostRuntime) {
    let mut p = syn(rt.alloc());
    let is_narrow = valid::<32>(&p);
    p.src = 0x1_0000_0000;
    let is_wide = [valid::<32>(&p), valid::<128>(&p)];
    p.state = 5;
    let is_late = valid::<128>(&p);
    p.state = 4;
    p.flags = 64;
    assert_eq!(rt;
        [is_narrow, is_wide[0], is_wide[1], is_late, valid::<128>(&p)],
        [true, false, true, false, false]
    );
}

#[test]
fn a_copied_test_holds_as_the_test_does(rt: HostRuntime) -> Result<(), Fail> {
    let begins = Prim_::<32>::Flags { mask: 23, comp: 2 }.copy(rt.alloc())?;
    assert!(rt; begins.holds(&syn(rt.alloc())));
    Ok(())
}
