ghost use Rattle.std.specs.Prelude.{◌≡◌, ◌++◌, IfOk, OnOk, codes, decimal};
ghost use Rattle.dump_grammar.specs.Lines.{bare};
ghost use Rattle.dump_print.specs.Numbers.{are_plain_numbers, protocol_text, protocols_of, said_of, said_without, types_of};
ghost use Rattle.dump_print.specs.Parts.{has_words, module_words, number_words, option_words, protocol_words, type_words};
ghost use Rattle.dump_print.specs.Spelling.{spaced};

use crate::writer::{append_word, append_words};
use interval_set::Set;
use primitives::{append_number, append_proto};
use std::alloc::{AllocError, Global};

/// What one line can say of a set of protocols, or of types of messages.
#[derive(Clone, Copy, Debug, PartialEq, Eq)]
pub enum Numbers {
    /// Every number.
    Every,
    /// This number alone.
    Only(u8),
    /// Every number but this one.
    AllBut(u8),
    /// More than one line can say.
    Others,
}

impl Numbers {
    // Whether one line can say the numbers.
    pub(crate) fn are_plain(self) -> bool
        ensures { result ≡ are_plain_numbers self }
    {
        !matches!(self, Numbers::Others)
    }
}

// What one line can say of the numbers that are not in this set.
fn without(lacking: &Set<8>) -> Numbers
    ensures { result ≡ said_without lacking.now }
{
    match lacking.ranges() {
        [only] if only.lo == only.hi => Numbers::AllBut(only.lo as u8),
        _ => Numbers::Others,
    }
}

// What one line can say of the numbers of a set; `unsaid` is a number that stands for something else.
fn line_numbers(alloc: Global, set: &Set<8>, unsaid: u8) -> Result<Numbers, AllocError>
    ensures { IfOk result (λ said. said ≡ said_of unsaid set.now) }
{
    if let [only] = set.ranges() {
        if only.lo == 0 && only.hi == 255 {
            return Ok(Numbers::Every);
        }
        if only.lo == only.hi && only.lo != unsaid as u128 {
            return Ok(Numbers::Only(only.lo as u8));
        }
    }
    let lacking = set.not(alloc)?;
    Ok(without(&lacking))
}

/// What one line can say of the protocols of a set. A line can't say protocol 0 alone, since that is every protocol.
pub(crate) fn line_protocols(alloc: Global, set: &Set<8>) -> Result<Numbers, AllocError>
    ensures { IfOk result (λ said. said ≡ protocols_of set.now) }
{
    line_numbers(alloc, set, 0)
}

/// What one line can say of the types of a set. A line can't say type 255 alone, since that isn't read as a type.
pub(crate) fn line_types(alloc: Global, set: &Set<8>) -> Result<Numbers, AllocError>
    ensures { IfOk result (λ said. said ≡ types_of set.now) }
{
    line_numbers(alloc, set, 255)
}

/// Appends an option with a protocol.
pub(crate) fn append_protocol(number: u8, out: &mut Vec<u8>) -> Result<(), AllocError>
    ensures { OnOk result (out.new.items ≡ out.old.items ++ spaced (option_words (codes "-p") (bare (protocol_text number)))) }
{
    append_word(b"-p", out)?;
    out.push(b' ')?;
    append_proto(number, out)
}

/// Appends what a line says of the protocols.
pub(crate) fn append_protocols(protocols: Numbers, out: &mut Vec<u8>) -> Result<(), AllocError>
    ensures { OnOk result (out.new.items ≡ out.old.items ++ spaced (protocol_words protocols)) }
{
    match protocols {
        Numbers::Every | Numbers::Others => Ok(()),
        Numbers::Only(number) => append_protocol(number, out),
        Numbers::AllBut(number) => {
            append_word(b"!", out)?;
            append_protocol(number, out)
        }
    }
}

// Appends an option with a type.
fn append_type(option: &[u8], number: u8, out: &mut Vec<u8>) -> Result<(), AllocError>
    ensures { OnOk result (out.new.items ≡ out.old.items ++ spaced (option_words option.now (bare (decimal number)))) }
{
    append_word(option, out)?;
    out.push(b' ')?;
    append_number(number as u128, out)
}

// Appends the types as an option of this module, where one line can say them and they aren't all.
fn append_module_types(
    name: &[u8],
    option: &[u8],
    types: Numbers,
    out: &mut Vec<u8>,
) -> Result<(), AllocError>
    ensures { OnOk result (out.new.items ≡ out.old.items ++ spaced (module_words name.now (number_words option.now decimal types))) }
{
    match types {
        Numbers::Every | Numbers::Others => Ok(()),
        Numbers::Only(number) => {
            append_words(b"-m", name, out)?;
            append_type(option, number, out)
        }
        Numbers::AllBut(number) => {
            append_words(b"-m", name, out)?;
            append_word(b"!", out)?;
            append_type(option, number, out)
        }
    }
}

/// Appends what a line says of the types of messages, where the protocols are one whose messages have types.
pub(crate) fn append_types(
    protocols: Numbers,
    types: Numbers,
    out: &mut Vec<u8>,
) -> Result<(), AllocError>
    ensures { OnOk result (out.new.items ≡ out.old.items ++ spaced (type_words protocols types)) }
{
    match protocols {
        Numbers::Only(1) => append_module_types(b"icmp", b"--icmp-type", types, out),
        Numbers::Only(58) => append_module_types(b"icmp6", b"--icmpv6-type", types, out),
        _ => Ok(()),
    }
}
