ghost use Rattle.std.specs.Prelude.{ℕ, ◌≡◌, ◌<◌, length, map, IfOk, OnOk, MatchOption};
ghost use Rattle.std.specs.List.{AllByRecursion};
ghost use Rattle.interval_set.specs.Numbers.{has};
ghost use Rattle.service_matrix.specs.inner.Classes.{Differ, HasSameAt, Put, addresses_of, edge_row, edges_of};

use interval_set::Set;
use match_expr::List;
use std::alloc::{AllocError, Global};

/// Addresses that have the same row and the same column.
#[derive(Drop)]
pub(crate) struct Class<const W: u32> {
    pub addresses: Set<W>,
    /// The least of the addresses.
    pub least: u128,
    /// To which addresses an edge goes from each of them.
    pub row: Set<W>,
    /// From which addresses an edge goes to each of them.
    pub column: Set<W>,
}

/// The place of the first class with the row and the column of this one.
fn same_class<const W: u32>(classes: &[Class<W>], new: &Class<W>) -> Option<usize>
    ensures { MatchOption result (AllByRecursion (λ (class : Class W). Differ class new.now) classes.now) (HasSameAt classes.now new.now) }
{
    for (at, class) in classes.iter().enumerate() {
        if class.row.same(&new.row) && class.column.same(&new.column) {
            return Some(at);
        }
    }
    None
}

/// Adds the addresses of a class to the class with its row and its column, or else the class itself as the last.
pub(crate) fn put<const W: u32>(
    alloc: Global,
    classes: &mut Vec<Class<W>>,
    new: Class<W>,
) -> Result<(), AllocError>
    ensures { OnOk result (Put classes.old.items new.entry classes.new.items) }
{
    match same_class(classes.as_slice(), &new) {
        Some(at) => {
            let addresses = classes[at].addresses.or(alloc, &new.addresses)?;
            classes[at].addresses = addresses;
        }
        None => classes.push(new)?,
    }
    Ok(())
}

/// Whether an edge goes from a class to each of the classes.
fn edges_from<const W: u32>(
    alloc: Global,
    from: &Class<W>,
    classes: &[Class<W>],
) -> Result<List<bool>, AllocError>
    ensures { IfOk result (λ row. row ≡ edge_row from.now classes.now) }
{
    let mut row = Vec::with_capacity(alloc, classes.len())?;
    for class in classes {
        row.push(from.row.contains(class.least))?;
    }
    Ok(List::of(row))
}

/// For each class whether an edge goes from it to each of the classes.
pub(crate) fn edges<const W: u32>(
    alloc: Global,
    classes: &[Class<W>],
) -> Result<List<List<bool>>, AllocError>
    ensures { IfOk result (λ edges. edges ≡ edges_of classes.now) }
{
    let mut rows = Vec::with_capacity(alloc, classes.len())?;
    for class in classes {
        rows.push(edges_from(alloc, class, classes)?)?;
    }
    Ok(List::of(rows))
}

/// The addresses of each class.
pub(crate) fn addresses<const W: u32>(
    alloc: Global,
    classes: &[Class<W>],
) -> Result<List<Set<W>>, AllocError>
    ensures { IfOk result (λ sets. sets ≡ addresses_of classes.now) }
{
    let mut sets = Vec::with_capacity(alloc, classes.len())?;
    for class in classes {
        sets.push(class.addresses.copy(alloc)?)?;
    }
    Ok(List::of(sets))
}
