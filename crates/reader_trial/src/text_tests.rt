ghost use Rattle.std.specs.Prelude.{◌≤◌, ◌<◌, length};
ghost use Rattle.interval_set.specs.Numbers.{IsWidth};
ghost use Rattle.limits.specs.declared.TheConstants.{MOST_BYTES};

use addr_text::{Family, V4, V6};
use dump_read::{ReadFault, Reading, fronts_fit, one_answer, one_kind};
use fw_rule::Dump;
use limits::MOST_BYTES;
use primitives::Prim_;
use std::alloc::Global;
use std::test::Fail;

// The names of the chains, each with the lines of its rules behind it.
fn names_and_lines<const W: u32>(
    alloc: Global,
    dump: &Dump<Prim_<W>>,
) -> Result<Vec<u8>, ReadFault> {
    let mut shown = Vec::new(alloc);
    for chain in dump.chains.as_slice() {
        let Ok(()) = shown.extend_from_slice(chain.name.as_slice()) else {
            return Err(ReadFault::Memory);
        };
        for rule in chain.rules.as_slice() {
            let Ok(()) = shown.push((rule.line & 0xff) as u8) else {
                return Err(ReadFault::Memory);
            };
        }
    }
    Ok(shown)
}

// The same of the dump that a text is which comes in pieces of this size.
fn shown_in_pieces<F: Family<W>, const W: u32>(
    alloc: Global,
    text: &[u8],
    size: usize,
) -> Result<Vec<u8>, ReadFault>
    requires width { IsWidth W }
    requires size { length text.now ≤ MOST_BYTES }
    requires some { 0 < size }
{
    let mut reading = Reading::<F, W>::new(alloc);
    let mut rest = text;
    while !rest.is_empty() {
        let (piece, after) = rest.split_at(rest.len().min(size));
        reading.feed(alloc, piece)?;
        rest = after;
    }
    names_and_lines(alloc, &reading.finish(alloc)?)
}

#[test]
fn pieces_are_read_as_the_whole_text(rt: HostRuntime) {
    let text =
        b"*filter\r\n:F - [0:0]\n# \"\n-A F -j ACCEPT\n\n-A F -m comment --comment \"a b\" -j DROP\nCOMMIT".as_slice();
    let malformed = b"*filter\nCOMMIT x\nCOMMIT\n*filter\n".as_slice();
    assert!(rt; text.len() <= MOST_BYTES && malformed.len() <= MOST_BYTES);
    for size in [1, 2, 7] {
        assert!(rt; 0 < size);
        match shown_in_pieces::<V4, 32>(rt.alloc(), text, size) {
            Ok(found) => assert!(rt; found.as_slice() == b"F\x04\x06".as_slice()),
            Err(_) => assert!(rt; false),
        }
        match shown_in_pieces::<V4, 32>(rt.alloc(), malformed, size) {
            Ok(_) => assert!(rt; false),
            Err(fault) => assert!(rt; fault == ReadFault::Malformed { line: 2 }),
        }
    }
}

#[test]
fn the_laws_hold_in_both_families() {
    let text = b"*filter\nCOMMIT\n".as_slice();
    one_kind::<V4, 32>(text);
    one_kind::<V6, 128>(text);
    one_answer::<V4, 32>(text);
    one_answer::<V6, 128>(text);
    fronts_fit::<V6, 128>();
}
