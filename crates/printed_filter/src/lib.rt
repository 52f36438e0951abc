//! What a printed filter means: the dump of its text answers as the rules that were printed.
#![tactic(auto)]

ghost use Rattle.printed_filter.specs.Laws.{ArePrintable, MeansItsRules};

use box_norm::SimpleRule;
use dump_print::{flags_are_kept, ports_are_kept};
use fw_rule::Verdict;

/// That the dump of the printed rules begins with the asked chain, is settled from there, and has no unknown literal in any
/// chain, and that the walk of each valid packet over it has the verdict of the first rule whose cube holds, or else of the
/// policy.
pub fn means_its_rules<const W: u32>(chain: &[u8], policy: Verdict, rules: &[SimpleRule<W>])
    requires { ArePrintable rules.now }
    ensures { MeansItsRules chain.now policy rules.now }
{
    flags_are_kept();
    ports_are_kept();
}
