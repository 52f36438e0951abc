ghost use Rattle.std.specs.Prelude.{◌≡◌, IfOk, IsTrue, IsFalse};
ghost use Rattle.fw_rule.specs.Walk.{HasRoom, Settled, May};
ghost use Rattle.reckoner.specs.Answers.{SomeDrops};

use crate::places::{place_at, push_chain};
use fw_rule::{Dump, Place, Verdict, walk};
use match_expr::Primitive;
use std::alloc::{AllocError, Global};

/// Whether some meaning's walk accepts, and whether every meaning's does.
#[derive(Clone, Copy, Debug, PartialEq, Eq)]
pub struct Reckoned {
    pub may: bool,
    pub must: bool,
}

/// The answers over all meanings that have the places `held`, and of `rest` some.
fn under_each<P: Primitive>(
    alloc: Global,
    dump: &Dump<P>,
    chain: u32,
    p: &P::Packet,
    rest: &[Place],
    held: &mut Vec<Place>,
) -> Result<Reckoned, AllocError>
    requires settled { Settled dump.now chain }
    requires room { HasRoom dump.now }
    ensures may { IfOk result (λ r. IsTrue r.may → May P.meaning dump.now chain p.now) }
    ensures not_must { IfOk result (λ r. IsFalse r.must → SomeDrops P.meaning dump.now chain p.now) }
{
    match rest {
        [] => {
            let accepts = walk(alloc, dump, chain, p, held.as_slice())? == Verdict::Accept;
            Ok(Reckoned {
                may: accepts,
                must: accepts,
            })
        }
        [place, rest @ ..] => {
            let without = under_each(alloc, dump, chain, p, rest, held)?;
            held.push(place_at(alloc, place.steps.as_slice(), place.lit)?)?;
            let with = under_each(alloc, dump, chain, p, rest, held)?;
            let _last = held.pop();
            Ok(Reckoned {
                may: without.may || with.may,
                must: without.must && with.must,
            })
        }
    }
}

/// What may and what must be accepted, by a walk for each set of the places that calls and gotos lead to from the chain. With n such places it walks 2^n times.
pub fn reckon<P: Primitive>(
    alloc: Global,
    dump: &Dump<P>,
    chain: u32,
    p: &P::Packet,
) -> Result<Reckoned, AllocError>
    requires settled { Settled dump.now chain }
    requires room { HasRoom dump.now }

    // Each answer that can be shown by one walk has one.
    ensures may { IfOk result (λ r. IsTrue r.may → May P.meaning dump.now chain p.now) }
    ensures not_must { IfOk result (λ r. IsFalse r.must → SomeDrops P.meaning dump.now chain p.now) }
{
    let depth = dump.chains.as_slice().len() as u32;
    let mut places = Vec::new(alloc);
    push_chain(alloc, dump, chain, depth, &[], &mut places)?;
    under_each(
        alloc,
        dump,
        chain,
        p,
        places.as_slice(),
        &mut Vec::new(alloc),
    )
}
