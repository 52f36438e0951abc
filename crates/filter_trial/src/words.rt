use basics::{last_parted, parted};
use load_dump::load_text;
use match_expr::{Bytes, List, Tri, tri_all};
use opt_table::options;
use primitives::{
    append_flags, append_number, append_proto, append_state, append_states, read_flags, read_proto,
    read_state, read_states,
};
use std::test::Fail;

#[test]
fn a_text_is_parted_at_its_first_and_at_its_last_mark(rt: HostRuntime) {
    let text = b"a,b,c".as_slice();
    assert!(rt; parted(text, b',') == Some((b"a".as_slice(), b"b,c".as_slice())));
    assert!(rt; last_parted(text, b',') == Some((b"a,b".as_slice(), b"c".as_slice())));
    limits::are_these();
}

#[test]
fn a_part_that_is_no_decides(rt: HostRuntime) {
    let known = [
        tri_all(&[]),
        tri_all(&[Tri::Yes, Tri::Maybe, Tri::Yes]),
        tri_all(&[Tri::Maybe, Tri::No, Tri::Yes]),
    ];
    assert_eq!(rt; known, [Tri::Yes, Tri::Maybe, Tri::No]);
}

#[test]
fn lists_give_back_what_they_hold(rt: HostRuntime) -> Result<(), Fail> {
    let alloc = rt.alloc();
    let bytes = Bytes::of(b"abc".to_vec(alloc)?);
    assert_eq!(rt; bytes.into_vec().as_slice(), b"abc".as_slice());
    let list = List::of([7u32, 8].to_vec(alloc)?);
    assert_eq!(rt; list.into_vec().as_slice(), [7u32, 8].as_slice());
    Ok(())
}

#[test]
fn protocols_states_and_flags_have_numbers(rt: HostRuntime) -> Result<(), Fail> {
    let protocols = [read_proto(b"icmpv6"), read_proto(b"255"), read_proto(b"01")];
    assert_eq!(rt; protocols, [Some(58), Some(255), None]);
    let states = [
        read_state(b"UNTRACKED"),
        read_state(b"SNAT"),
        read_states(b"NEW,INVALID"),
    ];
    assert_eq!(rt; states, [Some(4), None, Some(3)]);
    let flags = [
        read_flags(b"FIN,SYN,RST,ACK"),
        read_flags(b"ALL"),
        read_flags(b"SYN,ALL"),
    ];
    assert_eq!(rt; flags, [Some(23), Some(63), None]);
    let mut out = Vec::new(rt.alloc());
    append_number(340, &mut out)?;
    append_proto(136, &mut out)?;
    append_state(3, &mut out)?;
    append_states(6, &mut out)?;
    append_flags(48, &mut out)?;
    assert_eq!(rt;
        out.as_slice(),
        b"340udpliteESTABLISHEDNEW,RELATEDACK,URG".as_slice()
    );
    Ok(())
}

#[test]
fn syn_is_an_option_of_tcp_alone(rt: HostRuntime) {
    let table = options();
    let found = [
        table.find(b"tcp", b"--syn"),
        table.find(b"udp", b"--syn"),
        table.find(b"", b"-s"),
    ];
    assert_eq!(rt; found, [Some(11), None, Some(0)]);
    assert_eq!(rt; (table.row(11).arity, table.row(10).arity), (0, 2));
    assert_eq!(rt;
        [table.has_module(b"tcp"), table.has_module(b"addrtype")],
        [true, false]
    );
}

#[test]
fn five_rules_are_one_of_each_kind(rt: HostRuntime) -> Result<(), Fail> {
    let text = load_text(rt.alloc(), 5)?;
    let wanted: &[u8] =
        b"*filter\n:FORWARD DROP [0:0]\n:S0 - [0:0]\n:S1 - [0:0]\n:S2 - [0:0]\n:S3 - [0:0]\n:S4 - [0:0]\n:S5 - [0:0]\n:S6 - [0:0]\n:S7 - [0:0]\n-A FORWARD -s 10.0.0.0/24 -m limit --limit 5/sec -j S0\n-A S0 -s 10.0.1.0/24 -j RETURN\n-A S0 -d 10.0.2.0/24 -p tcp -m tcp --dport 3 -j ACCEPT\n-A S0 -p udp -m recent --rcheck -j DROP\n-A FORWARD -d 10.0.4.0/24 -j ACCEPT\nCOMMIT\n";
    assert_eq!(rt; text.as_slice(), wanted);
    Ok(())
}
