ghost use Rattle.std.specs.Prelude.{◌≡◌, ◌++◌, OnOk};
ghost use Rattle.box_norm.specs.Normal.{with_verdict};
ghost use Rattle.box_norm.specs.Regular.{EachCube};
ghost use Rattle.box_norm.specs.Sets.{HasSets};

use crate::cubes::Cubes;
use box_norm::{Cube, SimpleRule};
use closure::{Sink, State};
use limits::MOST_RULES;
use match_expr::Expr;
use primitives::Prim_;
use std::alloc::{AllocError, Global};

/// The simple rules of the flat rules so far. Past the limit none is added, and once a list of cubes was too long, nothing
/// is kept up any more.
#[derive(Drop)]
pub(crate) struct Collected<const W: u32> {
    pub rules: Vec<SimpleRule<W>>,
    /// Whether the rules were too many.
    pub is_full: bool,
    /// Whether a list of cubes was too long.
    pub has_boxes: bool,
}

/// That each list of ranges in a cube is a set.
fn has_sets<const W: u32>(cube: &Cube<W>)
    ensures { HasSets cube.now }
{
    let _ = cube.src.ranges();
    let _ = cube.dst.ranges();
    let _ = cube.proto.ranges();
    let _ = cube.sport.ranges();
    let _ = cube.dport.ranges();
    let _ = cube.icmp.ranges();
}

/// Appends a rule with this verdict for each of the cubes.
fn push_rules<const W: u32>(
    out: &mut Vec<SimpleRule<W>>,
    cubes: Vec<Cube<W>>,
    accept: bool,
) -> Result<(), AllocError>
    ensures rules { OnOk result (out.new.items ≡ out.old.items ++ with_verdict accept cubes.entry.items) }
    ensures sets { OnOk result (EachCube HasSets out.old.items → EachCube HasSets out.new.items) }
{
    for cube in cubes {
        has_sets(&cube);
        out.push(SimpleRule { cube, accept })?;
    }
    Ok(())
}

impl<const W: u32> Sink<Prim_<W>, Cubes<W>> for Collected<W> {
    ghost use Rattle.simple_filter.specs.inner.Collected.{HasTaken};

    ghost given = { λ k xs. HasTaken k.rules.items k.is_full k.has_boxes xs };

    /// Once the rules were too many, no cut is made that surely comes to no list that is too long.
    fn put_cut(
        &mut self,
        alloc: Global,
        state: &Cubes<W>,
        e: &Expr<Prim_<W>>,
        accept: bool,
    ) -> Result<(), AllocError> {
        if self.has_boxes {
            return Ok(());
        }
        if self.is_full && state.stay_few(e) {
            return Ok(());
        }
        let Cubes { list, is_over } = state.cut(alloc, e)?;
        if is_over {
            self.has_boxes = true;
            return Ok(());
        }
        let cubes = list.into_vec();
        if self.is_full || self.rules.len() + cubes.len() > MOST_RULES {
            self.is_full = true;
            return Ok(());
        }
        push_rules(&mut self.rules, cubes, accept)?;
        Ok(())
    }

    /// Once a list was too long, so the answer stands, whatever else comes.
    fn is_settled(&self) -> bool {
        self.has_boxes
    }
}
