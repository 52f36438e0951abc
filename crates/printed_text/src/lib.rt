//! How a printed filter is read back: the grammar reads its text as the dump of its rules.
#![tactic(auto)]

ghost use Rattle.std.specs.Prelude.{◌≡◌, true};
ghost use Rattle.box_norm.specs.Regular.{EachCube};
ghost use Rattle.dump_grammar.specs.ChainLines.{built_in, is_among};
ghost use Rattle.dump_grammar.specs.Reads.{IsDump};
ghost use Rattle.dump_print.specs.Printed.{printed};
ghost use Rattle.printed_filter.specs.Laws.{ArePrintable};
ghost use Rattle.printed_filter.specs.PrintedDump.{printed_dump};
ghost use Rattle.printed_text.specs.Names.{HasPrintableNames};

use addr_text::Family;
use box_norm::SimpleRule;
use dump_print::{ports_are_kept, words_are_kept};
use fw_rule::Verdict;

/// That the text of printed rules is the dump that `printed_dump` says. The chain is one of INPUT, FORWARD and OUTPUT; the
/// cubes are regular, of the five states, with sets that are sets, and with names of interfaces that a line can say, as the
/// normal form makes them of a dump that was read. The call itself does nothing.
pub fn is_read_back<F: Family<W>, const W: u32>(
    chain: &[u8],
    policy: Verdict,
    rules: &[SimpleRule<W>],
)
    requires asked { is_among built_in chain.now ≡ true }
    requires printable { ArePrintable rules.now }
    requires names { EachCube HasPrintableNames rules.now }
    ensures { IsDump W F.Reads (printed F.text_of W chain.now policy rules.now) (printed_dump chain.now policy rules.now) }
{
    words_are_kept();
    ports_are_kept();
    let _ = chain;
    let _ = policy;
    let _ = rules;
}
