use addr_text::V4;
use chain_names::ChainNames;
use dump_grammar::{one_chain_line, one_division, one_rule_line, rule_line};
use dump_token::tokens;
use fw_rule::Lit;
use limits::MOST_BYTES;
use std::alloc::{AllocError, Global};
use std::test::Fail;

// Whether these are the words of the first match of a rule line that isn't understood.
fn keeps(alloc: Global, line: &[u8], wanted: &[u8]) -> Result<bool, AllocError> {
    if line.len() > MOST_BYTES {
        return Ok(false);
    }
    let Ok(words) = tokens(alloc, line) else {
        return Ok(false);
    };
    let names = ChainNames::new(alloc);
    let Some(rule) = rule_line::<V4, 32>(alloc, words.as_slice(), &names)? else {
        return Ok(false);
    };
    for literal in rule.literals.as_slice() {
        if let Lit::Unknown(text) = literal {
            return Ok(text.as_slice() == wanted);
        }
    }
    Ok(false)
}

// No output of the program has these words.
#[test]
fn a_match_that_is_not_understood_keeps_its_words(rt: HostRuntime) -> Result<(), Fail> {
    let cases: [(&[u8], &[u8]); 5] = [
        (b"-A user -m socket -m limit", b"-m socket"),
        (
            b"-A user -m limit -s 10.0.0.0/8 ! --limit 1/s \"a b\"",
            b"-m limit ! --limit 1/s a b",
        ),
        (b"-A user --dport 22", b"--dport 22"),
        (b"-A user -p 6 ! -f", b"! -f"),
        (
            b"-A user -m tcp ! --dport 22:80 --dport ssh",
            b"-m tcp --dport ssh",
        ),
    ];
    for (line, wanted) in cases {
        assert!(rt; keeps(rt.alloc(), line, wanted)?, "at {line:?}");
    }
    Ok(())
}

#[test]
fn the_laws_are_called(rt: HostRuntime) -> Result<(), Fail> {
    let words = tokens(rt.alloc(), b"-A user").map_err(|_| "tokens")?;
    let names = ChainNames::new(rt.alloc());
    one_rule_line::<V4, 32>(words.as_slice(), &names);
    one_chain_line(words.as_slice());
    one_division(words.as_slice());
    Ok(())
}
