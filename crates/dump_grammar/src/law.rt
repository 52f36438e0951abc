ghost use Rattle.std.specs.Prelude.{◌≤◌};
ghost use Rattle.dump_grammar.specs.Laws.{HasOneChain, HasOneDivision, HasOneRule};
ghost use Rattle.dump_grammar.specs.Lines.{words_of};

use addr_text::{Family, one_net, one_range};
use chain_names::ChainNames;
use dump_token::Token;

/// That the words of a line are divided into groups and a target in one way at most. The call itself does nothing: its
/// contract is the law.
pub fn one_division(words: &[Token])
    ensures { HasOneDivision (words_of words.now) }
{
    let _ = words;
}

/// That the words of a line declare one chain at most. The call itself does nothing: its contract is the law.
pub fn one_chain_line(words: &[Token])
    ensures { HasOneChain (words_of words.now) }
{
    let _ = words;
}

/// That the words of a line are one rule at most, where these chains are declared. The call itself does nothing: its
/// contract is the law.
pub fn one_rule_line<F: Family<W>, const W: u32>(words: &[Token], names: &ChainNames)
    requires { W ≤ 128 }
    ensures { HasOneRule W F.Reads names.now (words_of words.now) }
{
    one_net::<F, W>();
    one_range::<F, W>();
    let _ = words;
    let _ = names;
}
