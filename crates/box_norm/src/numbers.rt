ghost use Rattle.std.specs.Prelude.{◌≡◌, ◌↔◌, IfOk, IsTrue};
ghost use Rattle.interval_set.specs.Numbers.{IsSet};
ghost use Rattle.interval_set.specs.Spelling.{set_and, set_minus};
ghost use Rattle.box_norm.specs.Pieces.{single};

use interval_set::{Range, Set};
use std::alloc::{AllocError, Global};

/// The set of one number.
fn only(alloc: Global, number: u8) -> Result<Set<8>, AllocError>
    ensures { IfOk result (λ s. s ≡ single number) }
{
    Set::range(alloc, number as u128, number as u128)
}

/// Whether the set is that of this number.
fn is_only(set: &Set<8>, number: u8) -> bool
    ensures alone { IsTrue result ↔ (set.now ≡ single number) }
    ensures set { IsSet 8 set.now }
{
    let alone = [Range {
        lo: number as u128,
        hi: number as u128,
    }];
    set.ranges() == alone.as_slice()
}

/// The numbers of the set that are this one. Nothing is built where the set is that of the number, or lacks it.
#[tactic(auto, using(crate::proofs::RegularLaws::and_one, crate::proofs::RegularLaws::and_none))]
pub fn and_number(alloc: Global, set: &Set<8>, number: u8) -> Result<Set<8>, AllocError>
    ensures { IfOk result (λ s. s ≡ set_and 8 set.now (single number)) }
{
    if !set.contains(number as u128) {
        return Ok(Set::empty(alloc));
    }
    if is_only(set, number) {
        return set.copy(alloc);
    }
    only(alloc, number)
}

/// The numbers of the set but for this one. Nothing is built where the set is that of the number, or lacks it.
#[tactic(auto, using(crate::proofs::RegularLaws::minus_same, crate::proofs::RegularLaws::minus_none))]
pub fn minus_number(alloc: Global, set: &Set<8>, number: u8) -> Result<Set<8>, AllocError>
    ensures { IfOk result (λ s. s ≡ set_minus 8 set.now (single number)) }
{
    if is_only(set, number) {
        return Ok(Set::empty(alloc));
    }
    if !set.contains(number as u128) {
        return set.copy(alloc);
    }
    set.minus(alloc, &only(alloc, number)?)
}
