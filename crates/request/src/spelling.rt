ghost use Rattle.std.specs.Prelude.{◌≡◌, IfOk, IsErrOf, map, string_bytes};
ghost use Rattle.request.specs.Requests.{Asks, HasBounds, Spells, chain_in};
ghost use Rattle.request.specs.Lines.{line_parts};
ghost use Rattle.request.specs.declared.types.Request.{Request as Asked};

use crate::command::matches_in;
use crate::line::{Line, is_six, line_of, mode};
use crate::{Request, SpellFault};
use match_expr::Bytes;
use std::alloc::Global;

// The request that the parts of a command line are.
fn request_of(alloc: Global, line: &Line<'_>) -> Result<Request, SpellFault>
    ensures ok { IfOk result (Asks (line_parts line.now)) }
    ensures valid { IfOk result (λ r. HasBounds r.six r.mode) }
    ensures usage { IsErrOf result SpellFault.Usage → (r : Asked) → Asks (line_parts line.now) r → ⊥ }
{
    let Some(name) = line.mode else {
        return Err(SpellFault::Usage);
    };
    let Some(six) = is_six(line.family) else {
        return Err(SpellFault::Usage);
    };
    let mode = mode(alloc, name, six, line)?;
    let chain = match line.chain {
        Some(chain) => chain,
        None => "FORWARD",
    };
    Ok(Request {
        mode,
        chain: Bytes::of(chain.as_bytes().to_vec(alloc)?),
        six,
    })
}

/// The request that the words after the program's name spell. They are taken by clap's rules for one command: a mode, its
/// arguments, and `--chain`, `--family` and `--side` with a value each, none of them twice.
///
/// # Errors
///
/// `Usage` exactly where the words spell no request, or `Memory`.
#[tactic(auto, unfolding(crate::specs::Requests::Spells, crate::specs::Requests::parts_in))]
pub fn spell(alloc: Global, words: &Vec<String>) -> Result<Request, SpellFault>
    ensures ok { IfOk result (λ r. Spells (map string_bytes words.now.items) r) }
    ensures chain { IfOk result (λ r. r.chain ≡ chain_in (map string_bytes words.now.items)) }
    ensures valid { IfOk result (λ r. HasBounds r.six r.mode) }
    ensures usage { IsErrOf result SpellFault.Usage → (r : Asked) → Spells (map string_bytes words.now.items) r → ⊥ }
{
    let matches = matches_in(alloc, words.as_slice())?;
    let line = line_of(alloc, &matches)?;
    request_of(alloc, &line)
}
