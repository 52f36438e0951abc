ghost use Rattle.std.specs.Prelude.{◌≡◌, ◌++◌, ◌+◌, ◌<◌, ◌^◌, ℕ, IfOk, OnOk, OnErr, codes, decimal};
ghost use Rattle.fw_text.specs.Places.{name_at, place_text, step_text, steps_text};

use crate::names::shown;
use fw_rule::{Dump, Place, Step};
use match_expr::Primitive;
use std::alloc::{AllocError, Global};

// The name of a chain, empty where there is no chain of this number.
fn name_of<P: Primitive>(dump: &Dump<P>, chain: u32) -> &[u8]
    ensures { result.now ≡ name_at dump.now chain }
{
    match dump.chains.as_slice().get(chain as usize) {
        Some(chain) => chain.name.as_slice(),
        None => b"",
    }
}

// A word and the number after this one.
fn counted(alloc: Global, word: &str, number: u32) -> Result<Vec<u8>, AllocError>
    ensures { IfOk result (λ text. text.items ≡ word.now ++ decimal (number + 1)) }
{
    let next = number as u64 + 1;
    let text = format!(in alloc; "{word}{next}")?;
    Ok(text.into_bytes())
}

fn step_of<P: Primitive>(alloc: Global, dump: &Dump<P>, step: Step) -> Result<Vec<u8>, AllocError>
    ensures { IfOk result (λ text. text.items ≡ step_text dump.now step) }
{
    let mut text = Vec::new(alloc);
    shown(alloc, name_of(dump, step.chain), &mut text)?;
    text.extend_from_slice(&counted(alloc, " ", step.rule)?)?;
    Ok(text)
}

fn steps_of<P: Primitive>(
    alloc: Global,
    dump: &Dump<P>,
    steps: &[Step],
) -> Result<Vec<u8>, AllocError>
    ensures { IfOk result (λ text. text.items ≡ steps_text dump.now steps.now) }
{
    let mut text = Vec::new(alloc);
    for (i, step) in steps.iter().enumerate() {
        if i > 0 {
            text.extend_from_slice(b" > ")?;
        }
        text.extend_from_slice(&step_of(alloc, dump, *step)?)?;
    }
    Ok(text)
}

/// Appends a place of a literal: its steps with ` > ` between each two, then `literal` and the literal's number in its rule. A
/// step is the shown name of its chain and the number of its rule in the chain. Both numbers count from 1. Without memory
/// `out` is as before.
#[tactic(auto, unfolding(crate::specs::Places::place_text))]
pub fn place_text<P: Primitive>(
    alloc: Global,
    dump: &Dump<P>,
    place: &Place,
    out: &mut Vec<u8>,
) -> Result<(), AllocError>
    ensures ok { OnOk result (out.new.items ≡ out.old.items ++ place_text dump.now place.now) }
    ensures err { OnErr result (out.new.items ≡ out.old.items) }
{
    let mut text = steps_of(alloc, dump, place.steps.as_slice())?;
    text.extend_from_slice(&counted(alloc, " literal ", place.lit)?)?;
    out.extend_from_slice(&text)
}
