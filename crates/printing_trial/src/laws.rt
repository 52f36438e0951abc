ghost use Rattle.std.specs.Prelude.{◌≡◌, ◌∷◌, [], true, IfOk};
ghost use Rattle.name_set.specs.declared.pattern.Pattern.{Pattern};
ghost use Rattle.dump_print.specs.Helpers.{needs_helper};
ghost use Rattle.printed_filter.specs.Laws.{ArePrintable};

use addr_text::V4;
use box_norm::{SimpleRule, whole};
use fw_rule::Verdict;
use match_expr::{Bytes, List};
use name_set::Pattern;
use printed_filter::means_its_rules;
use printed_text::is_read_back;
use std::alloc::{AllocError, Global};
use std::test::Fail;

#[test]
fn the_laws_can_be_called_at_the_rule_of_all_packets(rt: HostRuntime) -> Result<(), Fail> {
    let cube = whole::<32>(rt.alloc())?;
    let rules = [SimpleRule { cube, accept: true }];
    means_its_rules(b"INPUT", Verdict::Drop, &rules);
    is_read_back::<V4, 32>(b"INPUT", Verdict::Drop, &rules);
    Ok(())
}

fn exact(alloc: Global, text: &[u8]) -> Result<Pattern, AllocError>
    ensures { IfOk result (λ p. p ≡ Pattern.Exact text.now) }
{
    Ok(Pattern::Exact(Bytes::of(Vec::from_slice(alloc, text)?)))
}

fn all_but_two_names(alloc: Global) -> Result<SimpleRule<32>, AllocError>
    ensures helped { IfOk result (λ rule. needs_helper rule.cube ≡ true) }
    ensures printable { IfOk result (λ rule. ArePrintable (rule ∷ [])) }
{
    let mut excluded = Vec::new(alloc);
    excluded.push(exact(alloc, b"lo")?)?;
    excluded.push(exact(alloc, b"eth0")?)?;
    let mut cube = whole::<32>(alloc)?;
    cube.in_name.excluded = List::of(excluded);
    Ok(SimpleRule { cube, accept: true })
}

#[test]
fn the_law_can_be_called_at_a_rule_with_a_helper_chain(rt: HostRuntime) -> Result<(), Fail> {
    let rules = [all_but_two_names(rt.alloc())?];
    means_its_rules(b"INPUT", Verdict::Drop, &rules);
    Ok(())
}
