ghost use Rattle.std.specs.Prelude.{◌≡◌, ◌++◌, OnOk, Some};
ghost use Rattle.interval_set.specs.Numbers.{IsWidth};
ghost use Rattle.primitives.specs.Ranges.{IsRange};
ghost use Rattle.dump_grammar.specs.Lines.{Text};
ghost use Rattle.dump_print.specs.Addresses.{is_everything, net_words, net_words_of, prefix_length, range_words};
ghost use Rattle.dump_print.specs.Parts.{both_words, has_words, iprange_words};
ghost use Rattle.dump_print.specs.Spelling.{spaced};

use crate::writer::{append_word, append_words};
use addr_text::Family;
use interval_set::{Range, Set, prefix_len};
use primitives::append_number;
use std::alloc::AllocError;

// The length of the prefix that is the range.
fn length_of<const W: u32>(range: Range) -> Option<u32>
    requires width { IsWidth W }
    requires range { IsRange W range }
    ensures { result ≡ prefix_length W range }
{
    prefix_len::<W>(range.lo, range.hi)
}

// Whether the range has every address.
fn is_every<const W: u32>(range: Range) -> bool
    requires { IsWidth W }
    ensures { result ≡ is_everything W range }
{
    range.lo == 0 && range.hi == Set::<W>::top()
}

/// Appends an option with an address and its length, where the range is a prefix and hasn't every address.
pub(crate) fn append_net<F: Family<W>, const W: u32>(
    option: &[u8],
    range: Range,
    out: &mut Vec<u8>,
) -> Result<(), AllocError>
    requires width { IsWidth W }
    requires range { IsRange W range }
    ensures { OnOk result (out.new.items ≡ out.old.items ++ spaced (net_words F.text_of W option.now range)) }
{
    if is_every::<W>(range) {
        return Ok(());
    }
    match length_of::<W>(range) {
        Some(len) => append_prefix::<F, W>(option, range, len, out),
        None => Ok(()),
    }
}

fn append_prefix<F: Family<W>, const W: u32>(
    option: &[u8],
    range: Range,
    len: u32,
    out: &mut Vec<u8>,
) -> Result<(), AllocError>
    requires width { IsWidth W }
    requires range { IsRange W range }
    ensures { OnOk result (out.new.items ≡ out.old.items ++ spaced (net_words_of F.text_of W option.now range (Some len))) }
{
    append_word(option, out)?;
    out.push(b' ')?;
    F::write(range.lo, out)?;
    out.push(b'/')?;
    append_number(len as u128, out)
}

// Appends an option with the first and the last address, where the range is no prefix.
fn append_range<F: Family<W>, const W: u32>(
    option: &[u8],
    range: Range,
    out: &mut Vec<u8>,
) -> Result<(), AllocError>
    requires width { IsWidth W }
    requires range { IsRange W range }
    ensures { OnOk result (out.new.items ≡ out.old.items ++ spaced (range_words F.text_of W option.now range)) }
{
    if length_of::<W>(range).is_some() {
        return Ok(());
    }
    append_word(option, out)?;
    out.push(b' ')?;
    F::write(range.lo, out)?;
    out.push(b'-')?;
    F::write(range.hi, out)
}

// Whether the range is no prefix.
fn has_range<F: Family<W>, const W: u32>(range: Range) -> bool
    requires width { IsWidth W }
    requires range { IsRange W range }
    ensures { (option : Text) → result ≡ has_words (range_words F.text_of W option range) }
{
    length_of::<W>(range).is_none()
}

// Whether one of the ranges is no prefix.
fn has_ranges<F: Family<W>, const W: u32>(source: Range, destination: Range) -> bool
    requires width { IsWidth W }
    requires source { IsRange W source }
    requires destination { IsRange W destination }
    ensures { result ≡ has_words (both_words F.text_of W source destination) }
{
    if has_range::<F, W>(source) {
        return true;
    }
    has_range::<F, W>(destination)
}

// Appends the ranges of both addresses that are no prefix.
fn append_both<F: Family<W>, const W: u32>(
    source: Range,
    destination: Range,
    out: &mut Vec<u8>,
) -> Result<(), AllocError>
    requires width { IsWidth W }
    requires source { IsRange W source }
    requires destination { IsRange W destination }
    ensures { OnOk result (out.new.items ≡ out.old.items ++ spaced (both_words F.text_of W source destination)) }
{
    append_range::<F, W>(b"--src-range", source, out)?;
    append_range::<F, W>(b"--dst-range", destination, out)
}

/// Appends the ranges of both addresses that are no prefix, as options of iprange.
pub(crate) fn append_ranges<F: Family<W>, const W: u32>(
    source: Range,
    destination: Range,
    out: &mut Vec<u8>,
) -> Result<(), AllocError>
    requires width { IsWidth W }
    requires source { IsRange W source }
    requires destination { IsRange W destination }
    ensures { OnOk result (out.new.items ≡ out.old.items ++ spaced (iprange_words F.text_of W source destination)) }
{
    if !has_ranges::<F, W>(source, destination) {
        return Ok(());
    }
    append_words(b"-m", b"iprange", out)?;
    append_both::<F, W>(source, destination, out)
}
