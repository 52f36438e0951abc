ghost use Rattle.std.specs.Prelude.{◌≡◌, [], if◌then◌else◌, None, Some, false, IfOk, IsTrue};
ghost use Rattle.interval_set.specs.Numbers.{IsWidth};
ghost use Rattle.box_norm.specs.Cuts.{Answers, Work};
ghost use Rattle.simple_filter.specs.inner.Collected as spec;
ghost use Rattle.simple_filter.specs.inner.Collected.{AreFew, cut_by, is_over, whole_cubes, within_limit};

use box_norm::{Cube, CubeFault, cut_list, cut_not_list, whole};
use closure::State;
use match_expr::{Expr, List};
use primitives::Prim_;
use std::alloc::{AllocError, Global};
use std::marker::Model;

/// At most `MOST_CUBES` regular cubes that are cut by one expression after another, or that a list on the way had more.
#[derive(Drop)]
pub(crate) struct Cubes<const W: u32> {
    pub list: List<Cube<W>>,
    /// Whether some list on the way was too long. Then `list` is empty.
    pub is_over: bool,
}

impl<const W: u32> Model for Cubes<W> {
    ghost use Rattle.std.specs.Prelude.{List as ListOf, Option, None, Some, if◌then◌else◌};
    ghost use Rattle.box_norm.specs.declared.cube.Cube.{Cube as CubeOf};
    ghost use Rattle.simple_filter.specs.inner.Collected.{AreFew};

    ghost Value = { Option (ListOf (CubeOf W)) };

    ghost view = { λ s. if s.is_over then None else Some s.list };

    ghost invariant = { λ s. AreFew s.list };
}

/// No cubes, or too many.
fn without_cubes<const W: u32>(alloc: Global, is_over: bool) -> Cubes<W>
    ensures { result ≡ (if is_over then None else Some []) }
{
    Cubes {
        list: List::of(Vec::new(alloc)),
        is_over,
    }
}

/// What a cut left, or that a list on the way was too long.
fn left_of<const W: u32>(
    alloc: Global,
    answer: Result<List<Cube<W>>, CubeFault>,
) -> Result<Cubes<W>, AllocError>
    requires { IfOk answer (λ list. AreFew list) }
    ensures { (work : Work W) → Answers work answer.entry → IfOk result (λ cubes. cubes ≡ within_limit work) }
{
    match answer {
        Ok(list) => Ok(Cubes {
            list,
            is_over: false,
        }),
        Err(CubeFault::Memory) => Err(AllocError),
        Err(_) => Ok(without_cubes(alloc, true)),
    }
}

/// Whether an expression is made of tests and of `All`, with no `Not`. A cut by it gives at most one piece a cube.
fn are_tests<const W: u32>(e: &Expr<Prim_<W>>) -> bool
    ensures { result ≡ spec.are_tests e.now }
{
    match e {
        Expr::All(parts) => {
            for part in parts.as_slice() {
                if !are_tests(part) {
                    return false;
                }
            }
            true
        }
        Expr::Not(_) => false,
        Expr::Prim(_) => true,
    }
}

impl<const W: u32> Cubes<W> {
    /// The cube of all packets.
    pub(crate) fn all_packets(alloc: Global) -> Result<Cubes<W>, AllocError>
        requires { IsWidth W }
        ensures { IfOk result (λ cubes. cubes ≡ whole_cubes W) }
    {
        let mut list = Vec::new(alloc);
        list.push(whole(alloc)?)?;
        Ok(Cubes {
            list: List::of(list),
            is_over: false,
        })
    }

    /// Whether a cut by the expression surely comes to no list that is too long. Only the expression is looked at.
    pub(crate) fn stay_few(&self, e: &Expr<Prim_<W>>) -> bool
        ensures { IsTrue result → is_over (cut_by self.now e.now) ≡ false }
    {
        !self.is_over && are_tests(e)
    }
}

impl<const W: u32> State<Prim_<W>> for Cubes<W> {
    ghost use Rattle.simple_filter.specs.inner.Collected.{cut_by};

    ghost left = { cut_by {W = W} };

    fn cut(&self, alloc: Global, e: &Expr<Prim_<W>>) -> Result<Cubes<W>, AllocError> {
        if self.is_over || self.list.as_slice().is_empty() {
            return Ok(without_cubes(alloc, self.is_over));
        }
        left_of(alloc, cut_list(alloc, self.list.as_slice(), e))
    }

    fn cut_not(&self, alloc: Global, e: &Expr<Prim_<W>>) -> Result<Cubes<W>, AllocError> {
        if self.is_over || self.list.as_slice().is_empty() {
            return Ok(without_cubes(alloc, self.is_over));
        }
        left_of(alloc, cut_not_list(alloc, self.list.as_slice(), e))
    }
}
