ghost use Rattle.std.specs.Prelude.{◌≡◌, ◌++◌, ◌∷◌, Bool, true, List, [], IfOk, IsTrue, OnOk, map};
ghost use Rattle.match_expr.specs.declared.expr.Expr.{Expr as Tested};
ghost use Rattle.match_expr.specs.declared.expr.Expr.TheVariants.{Not};
ghost use Rattle.closure.specs.Flat as spec;
ghost use Rattle.closure.specs.Flat.{stayed, carried};
ghost use Rattle.closure.specs.Stream.{IsSettled, cut_all};
ghost use Rattle.closure.specs.inner.Steps.{handed_on, refuted};

use crate::modes::Escape;
use crate::steps::{carry, carry_over, escape, stay, under};
use match_expr::{Boxed, Expr, Primitive};
use std::alloc::{AllocError, Global};

/// What is cut by each part of a flat rule in turn.
pub trait State<P: Primitive>: Drop {
    /// What is left of it.
    ghost left: { Self → Tested P → Self };

    /// What is left where the expression holds.
    fn cut(&self, alloc: Global, e: &Expr<P>) -> Result<Self, AllocError>
        ensures { IfOk result (λ s. s ≡ left self.now e.now) };

    /// What is left where it doesn't hold.
    fn cut_not(&self, alloc: Global, e: &Expr<P>) -> Result<Self, AllocError>
        ensures { IfOk result (λ s. s ≡ left self.now (Not e.now)) };
}

/// Takes what comes of each flat rule in turn, with the rule's verdict.
pub trait Sink<P: Primitive, S: State<P>>: Drop {
    /// It has been given these, in this order.
    ghost given: { Self → List (S × Bool) → Type 0 };

    /// Takes what the expression leaves of the state. The sink cuts the state itself, where it needs what is left.
    fn put_cut(
        &mut self,
        alloc: Global,
        state: &S,
        e: &Expr<P>,
        accept: bool,
    ) -> Result<(), AllocError>
        ensures { OnOk result ((xs : List (S × Bool)) → given self.old xs → given self.new (xs ++ (S.left state.now e.now, accept) ∷ [])) };

    /// Whether nothing that may still come makes a difference.
    fn is_settled(&self) -> bool
        ensures { IsTrue result → IsSettled given self.now };
}

impl<P: Primitive, S: State<P>> Sink<P, S> for Vec<(S, bool)> {
    ghost use Rattle.std.specs.Prelude.{◌≡◌};

    ghost given = { λ v xs. v.items ≡ xs };

    fn put_cut(
        &mut self,
        alloc: Global,
        state: &S,
        e: &Expr<P>,
        accept: bool,
    ) -> Result<(), AllocError> {
        let left = state.cut(alloc, e)?;
        self.push((left, accept))?;
        Ok(())
    }

    fn is_settled(&self) -> bool {
        false
    }
}

/// What is needed behind an item: the escapes that are found; what doesn't hold, for further ones; the state.
#[derive(Clone, Copy, Debug, PartialEq, Eq)]
pub struct Needs {
    pub escapes: bool,
    pub past: bool,
    pub state: bool,
}

impl Needs {
    /// Whether one of them is. Then the escapes of a block are.
    pub(crate) fn any(self) -> bool
        ensures escapes { self.escapes ≡ true → result ≡ true }
        ensures state { self.state ≡ true → result ≡ true }
    {
        self.escapes || self.state
    }

    /// What is needed behind an item that one of the same rule follows.
    pub(crate) fn before_more(self) -> Needs
        ensures escapes { result.escapes ≡ self.escapes }
        ensures past { result.past ≡ true }
        ensures state { result.state ≡ true }
    {
        Needs {
            past: true,
            state: true,
            ..self
        }
    }
}

/// What lies behind items that were passed: what is left of the state there, what doesn't hold there, and the items' escapes. What isn't needed isn't kept.
#[derive(Drop)]
pub(crate) struct Passed<P, S> {
    pub state: S,
    pub past: Vec<Expr<P>>,
    pub found: Vec<Escape<P>>,
}

impl<P: Primitive, S: State<P>> Passed<P, S> {
    /// Cut by what doesn't hold behind an item that leaves, if the state is needed.
    fn cut_past(&mut self, alloc: Global, e: &Expr<P>, needed: bool) -> Result<(), AllocError>
        ensures state { OnOk result (needed ≡ true → self.new.state ≡ S.left self.old.state (Not e.now)) }
        ensures past { OnOk result (self.new.past.items ≡ self.old.past.items) }
        ensures found { OnOk result (self.new.found.items ≡ self.old.found.items) }
    {
        if !needed {
            return Ok(());
        }
        self.state = self.state.cut_not(alloc, e)?;
        Ok(())
    }

    /// The escape of an item that leaves, and what doesn't hold behind it, where they are needed.
    fn note(&mut self, alloc: Global, e: &Expr<P>, n: u32, needs: Needs) -> Result<(), AllocError>
        ensures state { OnOk result (self.new.state ≡ self.old.state) }
        ensures past { OnOk result (needs.escapes ≡ true → needs.past ≡ true → self.new.past.items ≡ self.old.past.items ++ Not e.now ∷ []) }
        ensures found { OnOk result (needs.escapes ≡ true → self.new.found.items ≡ self.old.found.items ++ spec.escape self.old.past.items n e.now []) }
    {
        if !needs.escapes {
            return Ok(());
        }
        escape(alloc, self.past.as_slice(), &mut self.found, n, e)?;
        if !needs.past {
            return Ok(());
        }
        self.past
            .push(Expr::Not(Boxed::new(alloc, e.copy(alloc)?)?))?;
        Ok(())
    }

    /// Past an item that leaves.
    pub(crate) fn leave(
        &mut self,
        alloc: Global,
        e: &Expr<P>,
        n: u32,
        needs: Needs,
    ) -> Result<(), AllocError>
        ensures state { OnOk result (needs.state ≡ true → self.new.state ≡ S.left self.old.state (Not e.now)) }
        ensures past { OnOk result (needs.escapes ≡ true → needs.past ≡ true → self.new.past.items ≡ self.old.past.items ++ Not e.now ∷ []) }
        ensures found { OnOk result (needs.escapes ≡ true → self.new.found.items ≡ self.old.found.items ++ spec.escape self.old.past.items n e.now []) }
    {
        self.note(alloc, e, n, needs)?;
        self.cut_past(alloc, e, needs.state)
    }

    /// Cut by what doesn't hold behind a block, if the state is needed.
    fn cut_behind(
        &mut self,
        alloc: Global,
        escapes: &[Escape<P>],
        needed: bool,
    ) -> Result<(), AllocError>
        ensures state { OnOk result (needed ≡ true → self.new.state ≡ cut_all S.left self.old.state (map refuted escapes.now)) }
        ensures past { OnOk result (self.new.past.items ≡ self.old.past.items) }
        ensures found { OnOk result (self.new.found.items ≡ self.old.found.items) }
    {
        if !needed {
            return Ok(());
        }
        for x in escapes {
            self.state = self.state.cut_not(alloc, &x.condition)?;
        }
        Ok(())
    }

    /// The escapes of a block that leave the block around it too, and what doesn't hold behind the block, where they are needed.
    fn hand_on(
        &mut self,
        alloc: Global,
        escapes: Vec<Escape<P>>,
        needs: Needs,
    ) -> Result<(), AllocError>
        ensures state { OnOk result (self.new.state ≡ self.old.state) }
        ensures past { OnOk result (needs.escapes ≡ true → needs.past ≡ true → self.new.past.items ≡ self.old.past.items ++ map refuted escapes.items) }
        ensures found { OnOk result (needs.escapes ≡ true → self.new.found.items ≡ self.old.found.items ++ handed_on self.old.past.items escapes.items) }
    {
        if !needs.escapes {
            return Ok(());
        }
        if !needs.past {
            return carry_over(alloc, self.past.as_slice(), &mut self.found, escapes);
        }
        carry(
            alloc,
            self.past.as_slice(),
            &mut self.found,
            escapes.as_slice(),
        )?;
        stay(alloc, &mut self.past, escapes)
    }

    /// Past a block with these escapes.
    #[tactic(auto, using(crate::proofs::StepLemmas::stayed_under, crate::proofs::StepLemmas::carried_under))]
    pub(crate) fn run(
        &mut self,
        alloc: Global,
        e: &Expr<P>,
        escapes: Vec<Escape<P>>,
        needs: Needs,
    ) -> Result<(), AllocError>
        ensures state { OnOk result (needs.state ≡ true → self.new.state ≡ cut_all S.left self.old.state (stayed e.now escapes.items)) }
        ensures past { OnOk result (needs.escapes ≡ true → needs.past ≡ true → self.new.past.items ≡ self.old.past.items ++ stayed e.now escapes.items) }
        ensures found { OnOk result (needs.escapes ≡ true → self.new.found.items ≡ self.old.found.items ++ carried self.old.past.items e.now escapes.items) }
    {
        let outer = under(alloc, e, escapes)?;
        self.cut_behind(alloc, outer.as_slice(), needs.state)?;
        self.hand_on(alloc, outer, needs)
    }
}
