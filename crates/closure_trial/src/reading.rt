use crate::dumps::Is;
use fw_rule::{Action, Chain, Dump, Lit, Rule, Verdict};
use match_expr::{Bytes, Expr, List};
use std::alloc::{AllocError, Global};

/// The action of a letter: a capital one is a verdict, a pass or a return; a small one is the chain that is called or, behind `>`, gone to.
fn action(letter: u8, is_goto: bool) -> Option<Action> {
    match letter {
        b'A' => Some(Action::Accept),
        b'D' => Some(Action::Drop),
        b'P' => Some(Action::Pass),
        b'R' => Some(Action::Back),
        b'a'..=b'z' if is_goto => Some(Action::Goto(u32::from(letter - b'a'))),
        b'a'..=b'z' => Some(Action::Call(u32::from(letter - b'a'))),
        _ => None,
    }
}

/// A rule: a digit holds of the packet of that number, and behind `!` of the others; `?` is an unknown literal; the action comes last.
fn rule(alloc: Global, word: &str) -> Result<Option<Rule<Is>>, AllocError> {
    let mut lits = Vec::new(alloc);
    let mut neg = false;
    let mut is_goto = false;
    for letter in word.as_bytes() {
        match *letter {
            b'!' => neg = true,
            b'>' => is_goto = true,
            b'?' => lits.push(Lit::Unknown(Bytes::of(Vec::new(alloc))))?,
            b'0'..=b'9' => {
                let expr = Expr::Prim(Is(*letter - b'0'));
                lits.push(Lit::Known { neg, expr })?;
                neg = false;
            }
            last => {
                return Ok(action(last, is_goto).map(|action| Rule {
                    lits: List::of(lits),
                    action,
                    line: 1,
                }));
            }
        }
    }
    Ok(None)
}

/// The policy of a chain: `+` accepts and `-` drops.
fn policy(word: &str) -> Option<Verdict> {
    match word {
        "+" => Some(Verdict::Accept),
        "-" => Some(Verdict::Drop),
        _ => None,
    }
}

/// A chain: its policy, and its rules.
fn chain(alloc: Global, text: &str) -> Result<Option<Chain<Is>>, AllocError> {
    let mut words = text.split_whitespace();
    let Some(policy) = words.next().and_then(policy) else {
        return Ok(None);
    };
    let mut rules = Vec::new(alloc);
    for word in words {
        let Some(rule) = rule(alloc, word)? else {
            return Ok(None);
        };
        rules.push(rule)?;
    }
    Ok(Some(Chain {
        name: Bytes::of(Vec::new(alloc)),
        policy: Some(policy),
        rules: List::of(rules),
    }))
}

/// A dump: its chains between slashes. The first one is asked, and rules name it `a`, the next one `b`, and so on.
pub(crate) fn dump(alloc: Global, line: &str) -> Result<Option<Dump<Is>>, AllocError> {
    let mut chains = Vec::new(alloc);
    for text in line.split('/') {
        let Some(chain) = chain(alloc, text)? else {
            return Ok(None);
        };
        chains.push(chain)?;
    }
    Ok(Some(Dump {
        chains: List::of(chains),
    }))
}
