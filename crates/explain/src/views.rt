ghost use Rattle.std.specs.Prelude.{◌≡◌, map, None, IfOk, OnOk};
ghost use Rattle.match_expr.specs.Meaning.{eval_of};
ghost use Rattle.fw_rule.specs.Walk.{InSettled, Within, known_of};
ghost use Rattle.fw_rule.specs.declared.rule.Chain.{Chain};
ghost use Rattle.explain.specs.inner.Reaching as spec;
ghost use Rattle.explain.specs.inner.Reaching.{ReachIs};
ghost use Rattle.explain.specs.inner.Views.{Has, AreRight, Covers, Keeps};
ghost use Rattle.explain.specs.declared.views.View as seen;

use crate::reach::{Match, Reach, by_action, by_match, match_of};
use chain_graph::rules_of;
use fw_rule::{Dump, Lit, Rule, Verdict, doubtful};
use match_expr::{List, Primitive};
use std::alloc::{AllocError, Global};

/// What is seen of a rule for a packet and a wanted verdict: how it matches, and what is reached behind it.
#[derive(Clone, Copy)]
pub(crate) struct Sight {
    pub matching: Match,
    pub behind: Reach,
}

/// What is seen of a chain: its rules, and what is reached from the first of them on.
#[derive(Drop)]
pub(crate) struct View {
    pub sights: List<Sight>,
    pub start: Reach,
}

/// Whether a literal holds as far as it is known.
fn may_hold<P: Primitive>(lit: &Lit<P>, p: &P::Packet) -> bool
    ensures { result ≡ spec.may_hold P.meaning p.now lit.now }
{
    match lit {
        Lit::Known { neg: true, expr } => !expr.eval(p),
        Lit::Known { neg: false, expr } => expr.eval(p),
        Lit::Unknown(_) => true,
    }
}

/// Whether the known literals of a rule hold.
fn known_holds<P: Primitive>(rule: &Rule<P>, p: &P::Packet) -> bool
    ensures { result ≡ eval_of (λ x. P.meaning x p.now) (known_of rule.now) }
{
    for lit in rule.lits.as_slice() {
        if !may_hold(lit, p) {
            return false;
        }
    }
    true
}

/// What is reached from the first rule of a chain on. Its view is put into the table, with those of the chains in its
/// reach, where they aren't there yet.
pub(crate) fn view_chain<P: Primitive>(
    alloc: Global,
    dump: &Dump<P>,
    wanted: Verdict,
    p: &P::Packet,
    chain: u32,
    depth: u32,
    views: &mut [Option<View>],
) -> Result<Reach, AllocError>
    requires settled { InSettled dump.now chain }
    requires within { Within dump.now depth chain }
    requires covers { Covers dump.now views.old }
    requires right { AreRight P.meaning dump.now p.now wanted views.old }
    ensures covers { OnOk result (Covers dump.now views.new) }
    ensures right { OnOk result (AreRight P.meaning dump.now p.now wanted views.new) }
    ensures keeps { OnOk result (Keeps views.old views.new) }
    ensures has { OnOk result ((view : seen.View) × Has views.new chain view) }
    ensures is { IfOk result (ReachIs P.meaning dump.now p.now wanted chain 0) }
{
    if let Some(view) = &views[chain as usize] {
        return Ok(view.start);
    }
    let rules = rules_of(dump, chain);
    let unseen = Sight {
        matching: Match::Fails,
        behind: Reach::Never,
    };
    let mut sights = vec![in alloc; unseen; rules.len()]?;
    let mut behind = Reach::PastEnd;
    let mut left = rules.len();
    while left > 0 {
        left -= 1;
        let rule = &rules[left];
        let mut callee = Reach::Never;
        if let Some(called) = rule.action.target() {
            callee = view_chain(alloc, dump, wanted, p, called, depth - 1, views)?;
        }
        let matching = match_of(known_holds(rule, p), doubtful(rule));
        sights[left] = Sight { matching, behind };
        behind = by_match(
            matching,
            by_action(wanted, callee, behind, &rule.action),
            behind,
        );
    }
    views[chain as usize] = Some(View {
        sights: List::of(sights),
        start: behind,
    });
    Ok(behind)
}

/// A table that has no view.
pub(crate) fn no_views<P: Primitive>(
    alloc: Global,
    dump: &Dump<P>,
) -> Result<Vec<Option<View>>, AllocError>
    ensures { IfOk result (λ v. v.items ≡ map (λ (here : Chain P). None) dump.now.chains) }
{
    dump.chains.as_slice().iter().map(|_| None).collect(alloc)
}
