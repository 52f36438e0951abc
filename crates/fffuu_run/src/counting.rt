ghost use Rattle.std.specs.Prelude.{◌≡◌, ◌≤◌, ◌<◌, ◌^◌, ℕ, IfOk, length};
ghost use Rattle.std.specs.List.{sum_by};
ghost use Rattle.fw_rule.specs.Calls.{HasRoom};
ghost use Rattle.fw_rule.specs.Matching.{is_unknown};
ghost use Rattle.fffuu_run.specs.Counts.{counts_line, rules_in_chain, unknown_in_chain, unknown_in_rule};

use fw_rule::{Chain, Dump, Lit, Rule};
use match_expr::Primitive;
use std::alloc::{AllocError, Global};

fn is_unknown<P: Primitive>(literal: &Lit<P>) -> bool
    ensures { result ≡ is_unknown literal.now }
{
    matches!(literal, Lit::Unknown(_))
}

fn unknown_in_rule<P: Primitive>(rule: &Rule<P>) -> usize
    ensures { result ≡ unknown_in_rule rule.now }
{
    let literals = rule.lits.as_slice();
    literals
        .iter()
        .filter(|literal| is_unknown(*literal))
        .count()
}

fn unknown_in_rules<P: Primitive>(rules: &[Rule<P>]) -> u128
    requires { sum_by unknown_in_rule rules.now < 2 ^ 128 }
    ensures { result ≡ sum_by unknown_in_rule rules.now }
{
    rules.iter().map(|rule| unknown_in_rule(rule) as u128).sum()
}

fn unknown_in_chains<P: Primitive>(chains: &[Chain<P>]) -> u128
    requires { sum_by unknown_in_chain chains.now < 2 ^ 128 }
    ensures { result ≡ sum_by unknown_in_chain chains.now }
{
    let mut count = 0;
    for chain in chains {
        count += unknown_in_rules(chain.rules.as_slice());
    }
    count
}

fn rules_in<P: Primitive>(chains: &[Chain<P>]) -> usize
    requires { sum_by rules_in_chain chains.now < 2 ^ 64 }
    ensures { result ≡ sum_by rules_in_chain chains.now }
{
    let mut count = 0;
    for chain in chains {
        count += chain.rules.as_slice().len();
    }
    count
}

/// The line of a table's counts.
#[tactic(auto, using(crate::proofs::SizeLemmas::few_rules, crate::proofs::SizeLemmas::few_unknown))]
pub fn counts<P: Primitive>(alloc: Global, dump: &Dump<P>) -> Result<Vec<u8>, AllocError>
    requires { HasRoom dump.now }
    ensures { IfOk result (λ line. line.items ≡ counts_line dump.now) }
{
    let chains = dump.chains.as_slice();
    let count = chains.len();
    let rules = rules_in(chains);
    let unknown = unknown_in_chains(chains);
    let line = format!(in alloc; "ok chains {count} rules {rules} unknown {unknown}\n")?;
    Ok(line.into_bytes())
}
