ghost use Rattle.std.specs.Prelude.{◌≡◌, ◌≤◌, ◌<◌, ◌+◌, ◌∷◌, [], ℕ, List as Seq, drop, length, IfErr, IfOk, IfSome, IfNone, not};
ghost use Rattle.std.specs.List.{prefix_len};
ghost use Rattle.limits.specs.declared.TheConstants.{MOST_BYTES};
ghost use Rattle.dump_token.specs.Faults.{HasNoWords, IsLeftOpen, OnQuote};
ghost use Rattle.dump_token.specs.Words.{is_blank, AreBlanks, AreWords, Begins, BeginsNoBlank, BeginsPlain, IsFirst, IsUnclosed, OpensQuote};

use crate::TokenFault;
use crate::quoted::quoted;
use match_expr::{Bytes, List};
use std::alloc::{AllocError, Global};

/// A word of a line, and where it stands, with its quotes.
#[derive(Debug, Drop)]
pub struct Token {
    /// What the word says: without the quotes around it, and without the backslashes between them
    /// that only say that the next byte stands for itself.
    pub text: Bytes,
    /// Whether quotes stand around it.
    pub quoted: bool,
    /// How many bytes of the line stand before it.
    pub start: u32,
    /// How many bytes of the line stand before its end.
    pub end: u32,
}

fn is_blank_byte(b: u8) -> bool
    ensures { result ≡ is_blank b }
{
    b == b' ' || b == b'\t' || b == b'\r'
}

// How many blanks come first.
fn blanks(line: &[u8]) -> usize
    ensures count { result ≡ prefix_len is_blank line.now }
    ensures inside { result ≤ length line.now }
{
    let mut n = 0;
    while n < line.len() && is_blank_byte(line[n]) {
        n += 1;
    }
    n
}

// How many bytes come before the first blank.
fn run(line: &[u8]) -> usize
    ensures count { result ≡ prefix_len (λ b. not (is_blank b)) line.now }
    ensures inside { result ≤ length line.now }
{
    let mut n = 0;
    while n < line.len() && !is_blank_byte(line[n]) {
        n += 1;
    }
    n
}

fn after(bytes: &[u8], at: usize) -> &[u8]
    requires { at ≤ length bytes.now }
    ensures { result.now ≡ drop at bytes.now }
{
    &bytes[at..]
}

// The word that the bytes begin with, which is no quoted one. They stand from `start` on.
fn plain_word(alloc: Global, bytes: &[u8], start: usize) -> Result<Token, AllocError>
    requires room { start + length bytes.now ≤ MOST_BYTES }
    requires first { BeginsPlain bytes.now }
    ensures { IfOk result (λ word. (rest : Seq ℕ) × Begins start word bytes.now rest) }
{
    let count = run(bytes);
    let text = Bytes::of(bytes[..count].to_vec(alloc)?);
    Ok(Token {
        text,
        quoted: false,
        start: start as u32,
        end: (start + count) as u32,
    })
}

// The quoted word whose bytes after its first quote are these. That quote stands at `start`.
fn quoted_word(alloc: Global, bytes: &[u8], start: usize) -> Result<Token, TokenFault>
    requires room { start + length bytes.now < MOST_BYTES }
    ensures found { IfOk result (λ word. (rest : Seq ℕ) × Begins start word (34 ∷ bytes.now) rest) }
    ensures open { IfErr result (OnQuote (IsUnclosed bytes.now)) }
{
    match quoted(alloc, bytes)? {
        Some((text, count)) => Ok(Token {
            text,
            quoted: true,
            start: start as u32,
            end: (start + count + 2) as u32,
        }),
        None => Err(TokenFault::Quote),
    }
}

// The word that the bytes begin with, if there are any. They stand from `start` on.
fn word_at(alloc: Global, bytes: &[u8], start: usize) -> Result<Option<Token>, TokenFault>
    requires room { start + length bytes.now ≤ MOST_BYTES }
    requires first { BeginsNoBlank bytes.now }
    ensures found { IfOk result (λ found. IfSome found (λ word. (rest : Seq ℕ) × Begins start word bytes.now rest)) }
    ensures none { IfOk result (λ found. IfNone found (bytes.now ≡ [])) }
    ensures open { IfErr result (OnQuote ((rest : Seq ℕ) × (bytes.now ≡ 34 ∷ rest) × IsUnclosed rest)) }
{
    if bytes.is_empty() {
        return Ok(None);
    }
    if bytes[0] != b'"' {
        return Ok(Some(plain_word(alloc, bytes, start)?));
    }
    Ok(Some(quoted_word(alloc, after(bytes, 1), start)?))
}

// The first word that stands at `at` or later.
fn next_word(alloc: Global, line: &[u8], at: usize) -> Result<Option<Token>, TokenFault>
    requires room { length line.now ≤ MOST_BYTES }
    requires inside { at ≤ length line.now }
    ensures found { IfOk result (λ found. IfSome found (λ word. (rest : Seq ℕ) × IsFirst at word (drop at line.now) rest)) }
    ensures none { IfOk result (λ found. IfNone found (AreBlanks (drop at line.now))) }
    ensures open { IfErr result (OnQuote (OpensQuote (drop at line.now))) }
{
    let rest = after(line, at);
    let gap = blanks(rest);
    word_at(alloc, after(rest, gap), at + gap)
}

/// The words of a line of at most `limits::MOST_BYTES` bytes, in the order of the line.
///
/// `Quote` comes exactly where a quote that opens a word is never closed.
pub fn tokens(alloc: Global, line: &[u8]) -> Result<List<Token>, TokenFault>
    requires { length line.now ≤ MOST_BYTES }
    ensures words { IfOk result (λ words. AreWords 0 words line.now) }
    ensures open { IfErr result (OnQuote (IsLeftOpen line.now)) }
    ensures none { IfErr result (OnQuote (HasNoWords line.now)) }
{
    let mut words = Vec::new(alloc);
    let mut at = 0;
    while let Some(word) = next_word(alloc, line, at)? {
        at = word.end as usize;
        words.push(word)?;
    }
    Ok(List::of(words))
}
