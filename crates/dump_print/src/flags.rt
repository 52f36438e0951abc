ghost use Rattle.std.specs.Prelude.{◌≡◌, ◌<◌, ◌≤◌, ◌*◌, ◌+◌, ◌^◌, ◌++◌, IfOk, OnOk, map, IsTrue, ◌↔◌};
ghost use Rattle.primitives.specs.Holds.{has_bit};
ghost use Rattle.dump_print.specs.Flags.{all_below, cubes_of, flag_cubes, placed, same_truth};

use std::alloc::{AllocError, Global};

/// The numbers of flags of which those of the mask that are set are exactly those of comp.
#[derive(Clone, Copy, Debug, PartialEq, Eq)]
pub struct FlagCube {
    /// The flags that are looked at.
    pub mask: u8,
    /// Those of them that are set.
    pub comp: u8,
}

// Whether the set has the number.
fn has_number(numbers: u64, number: u32) -> bool
    requires { number < 64 }
    ensures { result ≡ has_bit numbers number }
{
    (numbers >> number) & 1 == 1
}

// Whether the set is the same without and with the flag of this weight. `count` flags follow it.
fn is_same(numbers: u64, count: u32, weight: u32) -> bool
    requires few { count < 6 }
    requires weights { weight * 2 ^ count ≡ 32 }
    ensures { result ≡ all_below (2 ^ count) (λ n. same_truth (has_bit numbers (weight * (2 * n))) (has_bit numbers (weight * (2 * n + 1)))) }
{
    for n in 0..1u32 << count {
        let number = weight * (2 * n);
        if has_number(numbers, number) != has_number(numbers, number + weight) {
            return false;
        }
    }
    true
}

// Appends the cubes of a set of numbers over the last `count` flags, the first of which has this weight, each with the
// mask and the comp of the flags before these.
fn add_cubes(
    numbers: u64,
    count: u32,
    weight: u32,
    front: FlagCube,
    out: &mut Vec<FlagCube>,
) -> Result<(), AllocError>
    requires few { count ≤ 6 }
    requires weights { weight * 2 ^ count ≡ 64 }
    requires mask { front.mask < weight }
    requires comp { front.comp < weight }
    ensures { OnOk result (out.new.items ≡ out.old.items ++ map (placed weight front) (flag_cubes count (λ n. has_bit numbers (weight * n)))) }
{
    if count == 0 {
        if has_number(numbers, 0) {
            out.push(front)?;
        }
        return Ok(());
    }
    if is_same(numbers, count - 1, weight) {
        return add_cubes(numbers, count - 1, 2 * weight, front, out);
    }
    let bit = weight as u8;
    let without = FlagCube {
        mask: front.mask + bit,
        comp: front.comp,
    };
    add_cubes(numbers, count - 1, 2 * weight, without, out)?;
    let with = FlagCube {
        mask: front.mask + bit,
        comp: front.comp + bit,
    };
    add_cubes(numbers >> weight, count - 1, 2 * weight, with, out)
}

/// The cubes of a set that has a bit for each number of six flags.
pub(crate) fn flag_cubes(alloc: Global, numbers: u64) -> Result<Vec<FlagCube>, AllocError>
    ensures { IfOk result (λ v. v.items ≡ cubes_of numbers) }
{
    let mut cubes = Vec::new(alloc);
    let none = FlagCube { mask: 0, comp: 0 };
    add_cubes(numbers, 6, 1, none, &mut cubes)?;
    Ok(cubes)
}
