ghost use Rattle.std.specs.Prelude.{◌≡◌, ◌≢◌, [], false, IfOk, IsErrOf, map, string_bytes};
ghost use Rattle.clap.specs.Words.{app_of, found_of, rows_of, rule_of};
ghost use Rattle.request.specs.CommandLine.{args_rule, bare, faults_in, fffuu, mode_rule, option_rule, rows_in};
ghost use Rattle.request.specs.declared.types.SpellFault.TheVariants as fault;

use crate::SpellFault;
use clap::error::ErrorKind;
use clap::{Arg, ArgMatches, Command};
use std::alloc::{AllocError, Global};

fn mode<'a>(alloc: Global) -> Arg<'a>
    ensures rule { rule_of result ≡ mode_rule }
    ensures local { result.global ≡ false }
{
    Arg::new(alloc, "mode").required(true)
}

fn args<'a>(alloc: Global) -> Arg<'a>
    ensures rule { rule_of result ≡ args_rule }
    ensures local { result.global ≡ false }
{
    Arg::new(alloc, "args").num_args(0..)
}

fn option<'a>(alloc: Global, name: &'a str) -> Arg<'a>
    ensures rule { rule_of result ≡ option_rule name.entry.now }
    ensures local { result.global ≡ false }
{
    Arg::new(alloc, name).long(name)
}

fn bare_command<'a>(alloc: Global) -> Command<'a>
    ensures { app_of result ≡ bare }
{
    Command::new(alloc, "fffuu")
        .no_binary_name(true)
        .disable_help_flag(true)
        .disable_version_flag(true)
}

fn command<'a>(alloc: Global) -> Result<Command<'a>, AllocError>
    ensures { IfOk result (λ c. app_of c ≡ fffuu) }
{
    bare_command(alloc)
        .arg(mode(alloc))?
        .arg(args(alloc))?
        .arg(option(alloc, "chain"))?
        .arg(option(alloc, "family"))?
        .arg(option(alloc, "side"))
}

/// The matches of the words. `Usage` comes exactly where clap finds a fault in them.
pub fn matches_in<'a>(alloc: Global, words: &'a [String]) -> Result<ArgMatches<'a>, SpellFault>
    ensures taken { IfOk result (λ m. (faults_in (map string_bytes words.now) ≡ [])
        × (rows_of (found_of m) ≡ rows_in (map string_bytes words.now))) }
    ensures refused { IsErrOf result fault.Usage → faults_in (map string_bytes words.now) ≢ [] }
{
    let command = command(alloc)?;
    match command.try_get_matches_from(words) {
        Ok(matches) => Ok(matches),
        Err(error) => match error.kind() {
            ErrorKind::OutOfMemory => Err(SpellFault::Memory),
            _ => Err(SpellFault::Usage),
        },
    }
}
