ghost use Rattle.std.specs.Prelude.{◌≤◌, length};
ghost use Rattle.limits.specs.declared.TheConstants.{MOST_BYTES};

use addr_text::{Family, Net, V4, V6, one_net, one_range, read_net, read_number, read_range};
use chain_names::ChainNames;
use dump_token::{TokenFault, one_reading, tokens};
use limits::MOST_BYTES;
use std::alloc::Global;
use std::test::Fail;

/// The texts of the words, each after a bar, or after a quote where it stood in quotes.
fn shown(alloc: Global, line: &[u8]) -> Result<Vec<u8>, TokenFault>
    requires { length line.now ≤ MOST_BYTES }
{
    let words = tokens(alloc, line)?;
    let mut shown = Vec::new(alloc);
    for word in words.as_slice() {
        shown.push(if word.quoted { b'"' } else { b'|' })?;
        shown.extend_from_slice(word.text.as_slice())?;
    }
    Ok(shown)
}

#[test]
fn words_and_quoted_words(rt: HostRuntime) -> Result<(), Fail> {
    let cases: [(&[u8], &[u8]); 6] = [
        (b" \t\r", b""),
        (b"  -A\tFORWARD \r", b"|-A|FORWARD"),
        (b"\"a\"\"b c\"-j", b"\"a\"b c|-j"),
        (b"ab\"cd e\"", b"|ab\"cd|e\""),
        (b"\"say \\\"\\no\\\\\" a\\\"b", b"\"say \"no\\|a\\\"b"),
        (b"\0\xff \x0b", b"|\0\xff|\x0b"),
    ];
    for (line, want) in cases {
        assert!(rt; line.len() <= MOST_BYTES);
        let found = shown(rt.alloc(), line)?;
        assert_eq!(rt; found.as_slice(), want);
    }
    let open = b"\"a\\\"";
    assert!(rt; matches!(shown(rt.alloc(), open), Err(TokenFault::Quote)));
    one_reading(open);
    Ok(())
}

#[test]
fn words_tell_where_they_stand(rt: HostRuntime) -> Result<(), Fail> {
    let words = tokens(rt.alloc(), b" -m \"a\\\"b\"c")?;
    let [first, second, third] = words.as_slice() else {
        return Err(Fail::from("not three words"));
    };
    assert_eq!(rt; [first.start, first.end, second.start], [1, 3, 4]);
    assert_eq!(rt; [second.end, third.start, third.end], [10, 10, 11]);
    Ok(())
}

#[test]
fn chains_are_numbered_in_the_order_of_declaration(rt: HostRuntime) -> Result<(), Fail> {
    let mut names = ChainNames::new(rt.alloc());
    assert!(rt; names.is_empty());
    let outcomes = [
        names.declare(rt.alloc(), b"INPUT")?,
        names.declare(rt.alloc(), b"INPUT")?,
        names.declare(rt.alloc(), b"")?,
    ];
    assert_eq!(rt; outcomes, [true, false, true]);
    assert_eq!(rt; names.number(b""), Some(1));
    assert_eq!(rt; names.number(b"input"), None);
    assert_eq!(rt; names.len(), 2);
    Ok(())
}

#[test]
fn addresses_are_read_and_written(rt: HostRuntime) -> Result<(), Fail> {
    let mut out = Vec::new(rt.alloc());
    assert_eq!(rt; V4::read(b"1.2.3.4"), Some(0x0102_0304));
    assert_eq!(rt; V6::read(b"2001:DB8::1"), Some(0x2001_0db8 << 96 | 1));
    V4::write(0xFFA8_0A01, &mut out)?;
    V6::write(0x1_0000_0000, &mut out)?;
    assert_eq!(rt; out.as_slice(), b"255.168.10.1::1:0:0".as_slice());
    Ok(())
}

#[test]
fn nets_ranges_and_numbers_are_read(rt: HostRuntime) {
    let four = Net::Prefix {
        value: 0x0a01_0000,
        len: 16,
    };
    let six = Net::Prefix {
        value: 0x2001_0db8 << 96,
        len: 32,
    };
    assert_eq!(rt; read_net::<V4, 32>(b"10.1.2.3/255.255.0.0"), Some(four));
    assert_eq!(rt; read_net::<V6, 128>(b"2001:db8::1/32"), Some(six));
    assert_eq!(rt; read_net::<V6, 128>(b"::1/ffff::ffff"), Some(Net::Masked));
    let range = read_range::<V4, 32>(b"10.0.0.1-10.0.0.9");
    assert_eq!(rt;
        range.map(|r| (r.lo, r.hi)),
        Some((0x0a00_0001, 0x0a00_0009))
    );
    let range = read_range::<V6, 128>(b"::1-::1:0");
    assert_eq!(rt; range.map(|r| (r.lo, r.hi)), Some((1, 0x1_0000)));
    assert_eq!(rt; read_number(b"32", 32), Some(32));
    assert_eq!(rt; read_number(b"05", 32), None);
    one_net::<V6, 128>();
    one_range::<V4, 32>();
}
