ghost use Rattle.std.specs.Prelude.{◌≡◌, ◌<◌, ◌++◌, ◌^◌, List, length, IfOk, OnOk, IfNone};
ghost use Rattle.fw_rule.specs.Walk.{InSettled, Within, HasRoom};
ghost use Rattle.fw_rule.specs.declared.rule.Place.{Place as place};
ghost use Rattle.fw_rule.specs.declared.rule.Verdict.{Verdict as verdict};
ghost use Rattle.explain.specs.Choices.{unknown_places};
ghost use Rattle.explain.specs.inner.Choosing as spec;
ghost use Rattle.explain.specs.inner.Reaching as reaching;
ghost use Rattle.explain.specs.inner.Views.{Has, AreRight, Covers};
ghost use Rattle.explain.specs.declared.views.View as seen;

use crate::reach::{Match, is_reached};
use crate::views::{Sight, View};
use chain_graph::rules_of;
use fw_rule::{Action, Dump, Lit, Place, Rule, Step, Verdict};
use match_expr::{List, Primitive};
use std::alloc::{AllocError, Global};

/// The sights of the rules of a chain.
fn sights_of(views: &[Option<View>], chain: u32) -> &[Sight]
    requires { (view : seen.View) × Has views.now chain view }
    ensures { (view : seen.View) × Has views.now chain view × (result.now ≡ view.sights) }
{
    match &views[chain as usize] {
        Some(view) => view.sights.as_slice(),
        None => unreachable!(),
    }
}

/// Whether the chosen walk passes a rule over.
fn is_passed(sight: Sight, past_end: bool) -> bool
    ensures { result ≡ spec.is_passed sight.matching (reaching.is_reached sight.behind past_end) }
{
    match sight.matching {
        Match::Fails => true,
        Match::Holds => false,
        Match::Doubtful => is_reached(sight.behind, past_end),
    }
}

/// Puts the places of a rule's unknown literals behind the others.
fn push_places<P: Primitive>(
    alloc: Global,
    rule: &Rule<P>,
    path: &[Step],
    places: &mut Vec<Place>,
) -> Result<(), AllocError>
    requires { length rule.now.lits < 2 ^ 32 }
    ensures { OnOk result (places.new.items ≡ places.old.items ++ unknown_places path.now 0 rule.now.lits) }
{
    let mut number = 0u32;
    for lit in rule.lits.as_slice() {
        if let Lit::Unknown(_) = lit {
            let steps = List::of(Vec::from_slice(alloc, path)?);
            places.push(Place { steps, lit: number })?;
        }
        number += 1;
    }
    Ok(())
}

/// What the chosen walk comes to from the first rule of a chain: a verdict, or None where it comes to the end of the chain
/// that it is in then, or goes back there. The places that it takes to hold are put behind the others.
pub(crate) fn choose_in<P: Primitive>(
    alloc: Global,
    dump: &Dump<P>,
    views: &[Option<View>],
    chain: u32,
    depth: u32,
    past_end: bool,
    path: &mut Vec<Step>,
    places: &mut Vec<Place>,
) -> Result<Option<Verdict>, AllocError>
    requires settled { InSettled dump.now chain }
    requires within { Within dump.now depth chain }
    requires room { HasRoom dump.now }
    requires covers { Covers dump.now views.now }
    requires has { (view : seen.View) × Has views.now chain view }
    ensures path { IfOk result (λ o. IfNone o (path.new.items ≡ path.old.items)) }
    ensures chooses { IfOk result (λ o. (added : List place) × (places.new.items ≡ places.old.items ++ added) × ((p : P.Packet) (v : verdict) → AreRight P.meaning dump.now p v views.now → spec.ChoosesTo P.meaning dump.now p v chain path.old.items past_end added o)) }
{
    let rules = rules_of(dump, chain);
    let sights = sights_of(views, chain);
    for next in 0..rules.len() {
        let sight = sights[next];
        if is_passed(sight, past_end) {
            continue;
        }
        let rule = &rules[next];
        path.push(Step {
            chain,
            rule: next as u32,
        })?;
        push_places(alloc, rule, path.as_slice(), places)?;
        match &rule.action {
            Action::Accept => return Ok(Some(Verdict::Accept)),
            Action::Drop => return Ok(Some(Verdict::Drop)),
            Action::Back => {
                path.pop();
                return Ok(None);
            }
            Action::Pass => {}
            Action::Call(callee) => {
                let behind = is_reached(sight.behind, past_end);
                let outcome = choose_in(
                    alloc,
                    dump,
                    views,
                    *callee,
                    depth - 1,
                    behind,
                    path,
                    places,
                )?;
                if outcome.is_some() {
                    return Ok(outcome);
                }
            }
            Action::Goto(target) => {
                let outcome = choose_in(
                    alloc,
                    dump,
                    views,
                    *target,
                    depth - 1,
                    past_end,
                    path,
                    places,
                )?;
                path.pop();
                return Ok(outcome);
            }
            Action::Other(_) => unreachable!(),
        }
        path.pop();
    }
    Ok(None)
}
