ghost use Rattle.std.specs.Prelude.{◌≡◌, ◌≤◌, ◌<◌, ◌++◌, IfOk, IsErrOf, OnOk, codes, map};
ghost use Rattle.std.specs.List.{flat_map};
ghost use Rattle.interval_set.specs.Numbers.{IsWidth};
ghost use Rattle.limits.specs.declared.TheConstants.{MOST_LINES};
ghost use Rattle.dump_grammar.specs.ChainLines.{policy_text};
ghost use Rattle.dump_print.specs.Printed.{all_lines, chain_words, count_lines, declared_helper, lines_of_helper, lines_of_rule, printed};
ghost use Rattle.dump_print.specs.Spelling.{line_text, lines_text};
ghost use Rattle.dump_print.specs.Views.{helped_of};
ghost use Rattle.dump_print.specs.declared.fault.PrintFault.TheVariants.{Lines};

use crate::counting::count_rules;
use crate::fault::PrintFault;
use crate::helpers::{Helped, append_helper, helper_name, number_helpers, verdict_text};
use crate::lines::append_cube;
use crate::writer::append_words;
use addr_text::Family;
use box_norm::SimpleRule;
use fw_rule::Verdict;
use limits::MOST_LINES;
use match_expr::Bytes;
use std::alloc::{AllocError, Global};

/// A filter as text.
#[derive(Drop)]
pub struct Printed {
    /// The bytes of the text.
    pub text: Bytes,
    /// How many rule lines it has.
    pub lines: u64,
}

// The word of a policy, and `-` where there is none.
fn policy_text(policy: Option<Verdict>) -> &'static [u8]
    ensures { result.now ≡ policy_text policy }
{
    match policy {
        Some(Verdict::Accept) => b"ACCEPT",
        Some(Verdict::Drop) => b"DROP",
        None => b"-",
    }
}

// Appends the line that declares a chain.
fn append_chain(name: &[u8], policy: Option<Verdict>, out: &mut Vec<u8>) -> Result<(), AllocError>
    ensures { OnOk result (out.new.items ≡ out.old.items ++ line_text (chain_words name.now policy)) }
{
    out.push(b':')?;
    out.extend_from_slice(name)?;
    append_words(policy_text(policy), b"[0:0]", out)?;
    out.push(b'\n')?;
    Ok(())
}

// Appends the line that declares a rule's helper chain.
fn append_declared(alloc: Global, helper: Option<u64>, out: &mut Vec<u8>) -> Result<(), AllocError>
    ensures { OnOk result (out.new.items ≡ out.old.items ++ lines_text (declared_helper helper)) }
{
    let Some(number) = helper else {
        return Ok(());
    };
    let name = helper_name(alloc, number)?;
    append_chain(name.as_slice(), None, out)
}

// Appends the lines that declare helper chains.
fn append_each_declared<const W: u32>(
    alloc: Global,
    rules: &[Helped<W>],
    out: &mut Vec<u8>,
) -> Result<(), AllocError>
    ensures { OnOk result (out.new.items ≡ out.old.items
        ++ lines_text (flat_map (λ helped. declared_helper helped.helper) (map helped_of rules.now))) }
{
    for helped in rules {
        append_declared(alloc, helped.helper, out)?;
    }
    Ok(())
}

// Appends a rule's lines in the asked chain.
fn append_rule<F: Family<W>, const W: u32>(
    alloc: Global,
    chain: &[u8],
    helped: Helped<W>,
    out: &mut Vec<u8>,
) -> Result<(), AllocError>
    ensures { OnOk result (out.new.items ≡ out.old.items ++ lines_text (lines_of_rule F.text_of W chain.now (helped_of helped.entry))) }
{
    let cube = &helped.rule.cube;
    match helped.helper {
        None => append_cube::<F, W>(alloc, chain, cube, verdict_text(helped.rule.accept), out),
        Some(number) => {
            let name = helper_name(alloc, number)?;
            append_cube::<F, W>(alloc, chain, cube, name.as_slice(), out)
        }
    }
}

// Appends the lines of the asked chain.
fn append_each_rule<F: Family<W>, const W: u32>(
    alloc: Global,
    chain: &[u8],
    rules: &[Helped<W>],
    out: &mut Vec<u8>,
) -> Result<(), AllocError>
    ensures { OnOk result (out.new.items ≡ out.old.items
        ++ lines_text (flat_map (lines_of_rule F.text_of W chain.now) (map helped_of rules.now))) }
{
    for helped in rules {
        append_rule::<F, W>(alloc, chain, *helped, out)?;
    }
    Ok(())
}

// Appends the lines of a rule's helper chain.
fn append_help<const W: u32>(
    alloc: Global,
    helped: Helped<W>,
    out: &mut Vec<u8>,
) -> Result<(), AllocError>
    ensures { OnOk result (out.new.items ≡ out.old.items ++ lines_text (lines_of_helper helped.entry.rule.now helped.entry.helper)) }
{
    let Some(number) = helped.helper else {
        return Ok(());
    };
    let name = helper_name(alloc, number)?;
    append_helper(alloc, name.as_slice(), helped.rule, out)
}

// Appends the lines of helper chains.
fn append_each_help<const W: u32>(
    alloc: Global,
    rules: &[Helped<W>],
    out: &mut Vec<u8>,
) -> Result<(), AllocError>
    ensures { OnOk result (out.new.items ≡ out.old.items
        ++ lines_text (flat_map (λ helped. lines_of_helper helped.rule helped.helper) (map helped_of rules.now))) }
{
    for helped in rules {
        append_help(alloc, *helped, out)?;
    }
    Ok(())
}

// Appends the whole text.
fn append_all<F: Family<W>, const W: u32>(
    alloc: Global,
    chain: &[u8],
    policy: Verdict,
    rules: &[Helped<W>],
    out: &mut Vec<u8>,
) -> Result<(), AllocError>
    ensures { OnOk result (out.new.items ≡ out.old.items ++ lines_text (all_lines F.text_of W chain.now policy (map helped_of rules.now))) }
{
    out.extend_from_slice(b"*filter\n")?;
    append_chain(chain, Some(policy), out)?;
    append_each_declared(alloc, rules, out)?;
    append_each_rule::<F, W>(alloc, chain, rules, out)?;
    append_each_help(alloc, rules, out)?;
    out.extend_from_slice(b"COMMIT\n")
}

/// The filter of a chain with this policy and these rules, in the form of iptables-save: the table opens, the chain is
/// declared, then each helper chain, and the rules follow. A rule has a line for each combination of its source and
/// destination ranges, lists of ports and cubes of flags; what no line can say stands in a helper chain of its own.
///
/// `PrintFault::Lines` exactly where there are more than 262,144 rule lines.
pub fn print<F: Family<W>, const W: u32>(
    alloc: Global,
    chain: &[u8],
    policy: Verdict,
    rules: &[SimpleRule<W>],
) -> Result<Printed, PrintFault>
    requires { IsWidth W }
    ensures text { IfOk result (λ p. p.text ≡ printed F.text_of W chain.now policy rules.now) }
    ensures count { IfOk result (λ p. p.lines ≡ count_lines F.text_of W chain.now rules.now) }
    ensures few { IfOk result (λ p. p.lines ≤ MOST_LINES) }
    ensures many { IsErrOf result Lines → MOST_LINES < count_lines F.text_of W chain.now rules.now }
{
    let helped = number_helpers(alloc, rules)?;
    let lines = count_rules(alloc, helped.as_slice())?;
    if lines > MOST_LINES {
        return Err(PrintFault::Lines);
    }
    let mut text = Vec::new(alloc);
    append_all::<F, W>(alloc, chain, policy, helped.as_slice(), &mut text)?;
    Ok(Printed {
        text: Bytes::of(text),
        lines,
    })
}
