ghost use Rattle.std.specs.Prelude.{◌≡◌, ◌++◌, ◌&&◌, IfOk, map, not};
ghost use Rattle.std.specs.Option.{unwrap_or};
ghost use Rattle.match_expr.specs.Meaning.{eval_of};
ghost use Rattle.primitives.specs.declared.prim.Packet.{Packet};
ghost use Rattle.primitives.specs.Holds.{holds_of, IsValid};
ghost use Rattle.box_norm.specs.Cubes.{any_holds};
ghost use Rattle.box_norm.specs.Pieces.{pieces_of};
ghost use Rattle.box_norm.specs.Cuts.{Answers, cuts_by, keep_all, omit_all, pieces_work};
ghost use Rattle.box_norm.specs.Regular.{AreRegular};

use crate::cube::{Cube, CubeFault};
use crate::pieces::push_pieces;
use limits::MOST_CUBES;
use match_expr::{Expr, List};
use primitives::Prim_;
use std::alloc::{AllocError, Global};

/// Copies of the cubes.
fn cubes_copy<const W: u32>(alloc: Global, list: &[Cube<W>]) -> Result<Vec<Cube<W>>, AllocError>
    ensures { IfOk result (λ v. v.items ≡ list.now) }
{
    let mut copies = Vec::new(alloc);
    for cube in list {
        copies.push(cube.copy(alloc)?)?;
    }
    Ok(copies)
}

/// The pieces of each cube where the test holds, or, if it is not to hold, those where it doesn't.
fn pieces_where<const W: u32>(
    alloc: Global,
    list: &[Cube<W>],
    x: &Prim_<W>,
    holds: bool,
) -> Result<List<Cube<W>>, CubeFault>
    ensures answers { Answers (pieces_work (pieces_of holds x.now) list.now) result }
    ensures regular { AreRegular list.now → IfOk result (λ l. AreRegular l) }
{
    let mut out = Vec::new(alloc);
    for cube in list {
        push_pieces(alloc, &mut out, cube, x, holds)?;
        if out.len() > MOST_CUBES {
            return Err(CubeFault::Boxes);
        }
    }
    Ok(List::of(out))
}

/// The cubes of both lists. Those of the second are moved only where the first has some.
fn joined<const W: u32>(out: Vec<Cube<W>>, more: Vec<Cube<W>>) -> Result<Vec<Cube<W>>, AllocError>
    ensures { IfOk result (λ v. v.items ≡ out.entry.items ++ more.entry.items) }
{
    if out.is_empty() {
        return Ok(more);
    }
    let mut out = out;
    let mut more = more;
    out.append(&mut more)?;
    Ok(out)
}

/// The list that is kept, and at first, where there is none yet, the one that was lent.
fn list_now<'a, const W: u32>(kept: &'a Option<List<Cube<W>>>, lent: &'a [Cube<W>]) -> &'a [Cube<W>]
    ensures { result.now ≡ unwrap_or kept.now lent.now }
{
    match kept {
        Some(kept) => kept.as_slice(),
        None => lent,
    }
}

/// The packets of the list where every part holds.
#[cycle(cuts)]
fn keep_parts<const W: u32>(
    alloc: Global,
    list: &[Cube<W>],
    parts: &[Expr<Prim_<W>>],
) -> Result<List<Cube<W>>, CubeFault>
    ensures answers { Answers (keep_all (map (cuts_by {W = W}) parts.now) list.now) result }
    ensures regular { AreRegular list.now → IfOk result (λ l. AreRegular l) }
{
    let mut kept: Option<List<Cube<W>>> = None;
    for part in parts {
        kept = match keep_list(alloc, list_now(&kept, list), part) {
            Ok(next) => Some(next),
            Err(fault) => return Err(fault),
        };
    }
    if list_now(&kept, list).len() > MOST_CUBES {
        return Err(CubeFault::Boxes);
    }
    match kept {
        Some(kept) => Ok(kept),
        None => Ok(List::of(cubes_copy(alloc, list)?)),
    }
}

/// The packets of the list where some part doesn't hold, those of the first part first.
#[cycle(cuts)]
fn omit_parts<const W: u32>(
    alloc: Global,
    list: &[Cube<W>],
    parts: &[Expr<Prim_<W>>],
) -> Result<List<Cube<W>>, CubeFault>
    ensures answers { Answers (omit_all (map (cuts_by {W = W}) parts.now) list.now) result }
    ensures regular { AreRegular list.now → IfOk result (λ l. AreRegular l) }
{
    let mut kept: Option<List<Cube<W>>> = None;
    let mut out = Vec::new(alloc);
    for part in parts {
        let more = match omit_list(alloc, list_now(&kept, list), part) {
            Ok(more) => more,
            Err(fault) => return Err(fault),
        };
        out = joined(out, more.into_vec())?;
        if out.len() > MOST_CUBES {
            return Err(CubeFault::Boxes);
        }
        kept = match keep_list(alloc, list_now(&kept, list), part) {
            Ok(next) => Some(next),
            Err(fault) => return Err(fault),
        };
    }
    Ok(List::of(out))
}

/// The packets of the list where the expression holds.
#[cycle(cuts)]
pub fn keep_list<const W: u32>(
    alloc: Global,
    list: &[Cube<W>],
    e: &Expr<Prim_<W>>,
) -> Result<List<Cube<W>>, CubeFault>
    ensures answers { Answers ((cuts_by {W = W} e.now).keep list.now) result }
    ensures regular { AreRegular list.now → IfOk result (λ l. AreRegular l) }
{
    match e {
        Expr::All(parts) => keep_parts(alloc, list, parts.as_slice()),
        Expr::Not(part) => omit_list(alloc, list, part.get()),
        Expr::Prim(x) => pieces_where(alloc, list, x, true),
    }
}

/// The packets of the list where the expression doesn't hold.
#[cycle(cuts)]
pub fn omit_list<const W: u32>(
    alloc: Global,
    list: &[Cube<W>],
    e: &Expr<Prim_<W>>,
) -> Result<List<Cube<W>>, CubeFault>
    ensures answers { Answers ((cuts_by {W = W} e.now).omit list.now) result }
    ensures regular { AreRegular list.now → IfOk result (λ l. AreRegular l) }
{
    match e {
        Expr::All(parts) => omit_parts(alloc, list, parts.as_slice()),
        Expr::Not(part) => keep_list(alloc, list, part.get()),
        Expr::Prim(x) => pieces_where(alloc, list, x, false),
    }
}
