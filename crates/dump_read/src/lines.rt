ghost use Rattle.std.specs.Prelude.{◌≡◌, ◌↔◌, ◌≤◌, ◌<◌, ◌∷◌, ◌++◌, ℕ, List as Seq, IfErr, IfNone, IfOk, IfSome, IsTrue, length};
ghost use Rattle.limits.specs.declared.TheConstants.{MOST_BYTES};
ghost use Rattle.dump_token.specs.Words.{is_blank, AreBlanks};
ghost use Rattle.dump_grammar.specs.Lines.{HasWords, IsLine, Word, is_passed_over, words_of};
ghost use Rattle.dump_grammar.specs.Tables.{IsCommit};
ghost use Rattle.dump_read.specs.inner.Parts.{FollowsBlanks, OnMalformed};

use crate::fault::LineFault;
use dump_token::{Token, TokenFault, tokens};
use match_expr::List;
use std::alloc::Global;

/// The first line that a line feed ends, without it, and what follows it. `None` comes exactly where there is no line
/// feed.
pub(crate) fn ended_line(text: &[u8]) -> Option<(&[u8], &[u8])>
    ensures some { IfSome result (λ p. IsLine p.0.now × (text.now ≡ p.0.now ++ 10 ∷ p.1.now)) }
    ensures none { IfNone result (IsLine text.now) }
    ensures shorter { IfSome result (λ p. length p.1.now < length text.now) }
{
    for (i, b) in text.iter().enumerate() {
        if *b == b'\n' {
            return Some((&text[..i], &text[i + 1..]));
        }
    }
    None
}

fn is_blank_byte(b: u8) -> bool
    ensures { result ≡ is_blank b }
{
    b == b' ' || b == b'\t' || b == b'\r'
}

// What is left once the blanks in front are off.
fn without_blanks(line: &[u8]) -> &[u8]
    ensures { FollowsBlanks line.now result.now }
{
    for (i, b) in line.iter().enumerate() {
        if !is_blank_byte(*b) {
            return &line[i..];
        }
    }
    &line[line.len()..]
}

fn all_blank(line: &[u8]) -> bool
    ensures { IsTrue result ↔ AreBlanks line.now }
{
    without_blanks(line).is_empty()
}

/// Whether the line is blank or a comment.
pub(crate) fn is_over(line: &[u8]) -> bool
    ensures { result ≡ is_passed_over line.now }
{
    match without_blanks(line).first() {
        Some(b) => *b == b'#',
        None => true,
    }
}

/// Whether the line is `COMMIT` between blanks.
pub(crate) fn is_commit(line: &[u8]) -> bool
    ensures { IsTrue result ↔ IsCommit line.now }
{
    match without_blanks(line).strip_prefix(b"COMMIT".as_slice()) {
        Some(rest) => all_blank(rest),
        None => false,
    }
}

/// The words of a line of at most `limits::MOST_BYTES` bytes.
pub(crate) fn line_words(alloc: Global, line: &[u8]) -> Result<List<Token>, LineFault>
    requires { length line.now ≤ MOST_BYTES }
    ensures words { IfOk result (λ tokens. HasWords line.now (words_of tokens)) }
    ensures few { IfOk result (λ tokens. length tokens ≤ length line.now) }
    ensures none { IfErr result (OnMalformed ((words : Seq Word) → HasWords line.now words → ⊥)) }
{
    match tokens(alloc, line) {
        Ok(tokens) => Ok(tokens),
        Err(TokenFault::Quote) => Err(LineFault::Malformed),
        Err(TokenFault::Memory) => Err(LineFault::Memory),
    }
}
