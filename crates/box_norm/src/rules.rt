ghost use Rattle.std.specs.Prelude.{◌≡◌, ◌++◌, ◌&&◌, [], ◌∷◌, IfOk, OnOk, not, ℕ};
ghost use Rattle.std.specs.List.{AllByRecursion};
ghost use Rattle.interval_set.specs.Numbers.{IsWidth};
ghost use Rattle.match_expr.specs.FirstMatch.{first_match};
ghost use Rattle.match_expr.specs.Meaning.{eval_of};
ghost use Rattle.primitives.specs.declared.prim.Packet.{Packet};
ghost use Rattle.primitives.specs.Holds.{holds_of, IsValid};
ghost use Rattle.box_norm.specs.Cubes.{any_holds};
ghost use Rattle.box_norm.specs.Cuts.{Answers, cuts_by};
ghost use Rattle.box_norm.specs.Disjoint.{AreDisjoint};
ghost use Rattle.box_norm.specs.Normal.{NormalAnswers, first_of, whole_of, with_verdict};
ghost use Rattle.box_norm.specs.Regular.{AreRegular, EachCube, HasStates, IsRegular, KeepsPatterns, NamesAreOf, rule_patterns};

use crate::cube::{Cube, CubeFault, SimpleRule};
use crate::cuts::{keep_list, omit_list};
use interval_set::Set;
use limits::MOST_RULES;
use match_expr::{Expr, FlatRule, List};
use name_set::NameSet;
use primitives::{Packet, Prim_};
use std::alloc::{AllocError, Global};

/// The packets of the list where the expression holds.
///
/// The parts of `All` cut one after another. At a test each cube is replaced by its pieces, in order, without empty
/// ones. `CubeFault::Boxes` exactly where a list of more than `MOST_CUBES` cubes comes up on the way, also one that isn't used
/// further; never `CubeFault::Rules`. Cubes that share no packet give cubes that share none, and regular cubes give
/// regular ones.
pub fn cut<const W: u32>(
    alloc: Global,
    list: List<Cube<W>>,
    e: &Expr<Prim_<W>>,
) -> Result<List<Cube<W>>, CubeFault>
    ensures answers { Answers ((cuts_by {W = W} e.now).keep list.entry) result }
    ensures disjoint { AreDisjoint list.entry → IfOk result (λ l. AreDisjoint l) }
    ensures regular { AreRegular list.entry → IfOk result (λ l. AreRegular l) }
    ensures states { AllByRecursion HasStates list.entry → IfOk result (AllByRecursion HasStates) }
    ensures packets { IfOk result (λ l. (p : Packet) → IsValid W p → any_holds l p ≡ (any_holds list.entry p && eval_of (λ x. holds_of x p) e.now)) }
{
    cut_list(alloc, list.as_slice(), e)
}

/// `cut` of a list that is lent, so that it stays.
///
/// Where the names of the list are of some patterns, and each pattern that the expression tests is one of them, the
/// names of the result are of these patterns too.
pub fn cut_list<const W: u32>(
    alloc: Global,
    list: &[Cube<W>],
    e: &Expr<Prim_<W>>,
) -> Result<List<Cube<W>>, CubeFault>
    ensures answers { Answers ((cuts_by {W = W} e.now).keep list.now) result }
    ensures disjoint { AreDisjoint list.now → IfOk result (λ l. AreDisjoint l) }
    ensures regular { AreRegular list.now → IfOk result (λ l. AreRegular l) }
    ensures states { AllByRecursion HasStates list.now → IfOk result (AllByRecursion HasStates) }
    ensures patterns { KeepsPatterns list.now e.now result }
    ensures packets { IfOk result (λ l. (p : Packet) → IsValid W p → any_holds l p ≡ (any_holds list.now p && eval_of (λ x. holds_of x p) e.now)) }
{
    keep_list(alloc, list, e)
}

/// The packets of the list where the expression doesn't hold.
///
/// At `All` those where the first part doesn't hold stand first, then those where it holds and the second doesn't, and so
/// on. At a negated test of ports, flags or types each cube gives two pieces: the other protocols, then the test's protocol
/// with the other ports, flags or types. `CubeFault::Boxes` exactly where a list of more than `MOST_CUBES` cubes comes up on the way;
/// never `CubeFault::Rules`. Cubes that share no packet give cubes that share none, and regular cubes give regular ones.
pub fn cut_not<const W: u32>(
    alloc: Global,
    list: List<Cube<W>>,
    e: &Expr<Prim_<W>>,
) -> Result<List<Cube<W>>, CubeFault>
    ensures answers { Answers ((cuts_by {W = W} e.now).omit list.entry) result }
    ensures disjoint { AreDisjoint list.entry → IfOk result (λ l. AreDisjoint l) }
    ensures regular { AreRegular list.entry → IfOk result (λ l. AreRegular l) }
    ensures states { AllByRecursion HasStates list.entry → IfOk result (AllByRecursion HasStates) }
    ensures packets { IfOk result (λ l. (p : Packet) → IsValid W p → any_holds l p ≡ (any_holds list.entry p && not (eval_of (λ x. holds_of x p) e.now))) }
{
    cut_not_list(alloc, list.as_slice(), e)
}

/// `cut_not` of a list that is lent, so that it stays.
///
/// Where the names of the list are of some patterns, and each pattern that the expression tests is one of them, the
/// names of the result are of these patterns too.
pub fn cut_not_list<const W: u32>(
    alloc: Global,
    list: &[Cube<W>],
    e: &Expr<Prim_<W>>,
) -> Result<List<Cube<W>>, CubeFault>
    ensures answers { Answers ((cuts_by {W = W} e.now).omit list.now) result }
    ensures disjoint { AreDisjoint list.now → IfOk result (λ l. AreDisjoint l) }
    ensures regular { AreRegular list.now → IfOk result (λ l. AreRegular l) }
    ensures states { AllByRecursion HasStates list.now → IfOk result (AllByRecursion HasStates) }
    ensures patterns { KeepsPatterns list.now e.now result }
    ensures packets { IfOk result (λ l. (p : Packet) → IsValid W p → any_holds l p ≡ (any_holds list.now p && not (eval_of (λ x. holds_of x p) e.now))) }
{
    omit_list(alloc, list, e)
}

/// The cube of all packets, which is regular, or `AllocError`.
pub fn whole<const W: u32>(alloc: Global) -> Result<Cube<W>, AllocError>
    requires { IsWidth W }
    ensures value { IfOk result (λ c. c ≡ whole_of W) }
    ensures regular { IfOk result (λ c. IsRegular c) }
{
    Ok(Cube {
        in_name: NameSet::full(alloc)?,
        out_name: NameSet::full(alloc)?,
        src: Set::range(alloc, 0, Set::<W>::top())?,
        dst: Set::range(alloc, 0, Set::<W>::top())?,
        proto: Set::range(alloc, 0, 255)?,
        sport: Set::range(alloc, 0, 65_535)?,
        dport: Set::range(alloc, 0, 65_535)?,
        flags: u64::MAX,
        state: 31,
        icmp: Set::range(alloc, 0, 255)?,
    })
}

/// Appends a rule with this verdict for each of the cubes.
fn push_rules<const W: u32>(
    out: &mut Vec<SimpleRule<W>>,
    cubes: Vec<Cube<W>>,
    accept: bool,
) -> Result<(), AllocError>
    ensures { OnOk result (out.new.items ≡ out.old.items ++ with_verdict accept cubes.entry.items) }
{
    for cube in cubes {
        out.push(SimpleRule { cube, accept })?;
    }
    Ok(())
}

/// The list of the cube of all packets alone.
fn whole_list<const W: u32>(alloc: Global) -> Result<Vec<Cube<W>>, AllocError>
    requires { IsWidth W }
    ensures { IfOk result (λ v. v.items ≡ whole_of W ∷ []) }
{
    let mut list = Vec::new(alloc);
    list.push(whole(alloc)?)?;
    Ok(list)
}

/// `normal`, by its list.
fn normal_list<const W: u32>(
    alloc: Global,
    rules: &[FlatRule<Prim_<W>>],
) -> Result<List<SimpleRule<W>>, CubeFault>
    requires { IsWidth W }
    ensures answers { NormalAnswers rules.now result }
    ensures regular { IfOk result (EachCube IsRegular) }
{
    let start = whole_list(alloc)?;
    let mut out = Vec::new(alloc);
    let mut is_full = false;
    for rule in rules {
        let cubes = match keep_list(alloc, start.as_slice(), &rule.expr) {
            Ok(cubes) => cubes.into_vec(),
            Err(fault) => return Err(fault),
        };
        is_full = is_full || out.len() + cubes.len() > MOST_RULES;
        if !is_full {
            push_rules(&mut out, cubes, rule.accept)?;
        }
    }
    if is_full {
        return Err(CubeFault::Rules);
    }
    Ok(List::of(out))
}

/// The flat list as rules of cubes: for each flat rule in turn the cubes of `cut` of the whole cube by its expression,
/// each with the rule's verdict.
///
/// `CubeFault::Boxes` exactly where `cut` answers it for some rule, else `CubeFault::Rules` exactly where the simple
/// rules are more than `MOST_RULES`. For each valid packet the first simple rule that holds gives the verdict of the first flat
/// rule whose expression holds. Each cube is regular, and each pattern in its names, but for a base of every name, stands
/// in a test of the rules.
pub fn normal<const W: u32>(
    alloc: Global,
    rules: &[FlatRule<Prim_<W>>],
) -> Result<List<SimpleRule<W>>, CubeFault>
    requires { IsWidth W }
    ensures answers { NormalAnswers rules.now result }
    ensures first { IfOk result (λ l. (p : Packet) → IsValid W p → first_of l p ≡ first_match (λ x. holds_of x p) rules.now) }
    ensures regular { IfOk result (EachCube IsRegular) }
    ensures states { IfOk result (EachCube HasStates) }
    ensures patterns { IfOk result (EachCube (NamesAreOf (rule_patterns rules.now))) }
{
    normal_list(alloc, rules)
}

/// What the first rule answers whose cube the packet is in. None exactly where there is no such rule.
pub fn first<const W: u32>(rules: &[SimpleRule<W>], p: &Packet) -> Option<bool>
    ensures { result ≡ first_of rules.now p.now }
{
    for rule in rules {
        if rule.cube.holds(p) {
            return Some(rule.accept);
        }
    }
    None
}
