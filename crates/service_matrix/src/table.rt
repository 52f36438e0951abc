ghost use Rattle.std.specs.Prelude.{◌≡◌, ◌<◌, ◌^◌, length, false, MatchOption};
ghost use Rattle.std.specs.List.{AllByRecursion};
ghost use Rattle.interval_set.specs.Numbers.{has};
ghost use Rattle.ip_partition.specs.Partition.{IsIn};
ghost use Rattle.service_matrix.specs.Matrices.{AreDisjoint, Covers, IsEdgeBetween, IsSquare};

use interval_set::Set;
use match_expr::List;

/// Classes of addresses, and from which class an edge goes to which. W is the number of bits of an address, 32 or 128.
#[derive(Drop)]
pub struct Matrix<const W: u32> {
    /// The classes. As `matrix` gives them, they stand in the order of their least addresses, and each address is in one of them.
    pub classes: List<Set<W>>,
    /// For each class, in the same order, whether an edge goes from it to each of the classes.
    pub edges: List<List<bool>>,
}

/// The place of the first class that has the address.
fn class_of<const W: u32>(classes: &[Set<W>], address: u128) -> Option<usize>
    ensures { MatchOption result (AllByRecursion (λ class. has class address ≡ false) classes.now) (λ i. IsIn classes.now i address) }
{
    for (at, class) in classes.iter().enumerate() {
        if class.contains(address) {
            return Some(at);
        }
    }
    None
}

impl<const W: u32> Matrix<W> {
    /// Whether an edge goes from the class of the one address to the class of the other. The classes cover all addresses, no two of them
    /// share one, and the edges have a row for each class with an entry for each class, as those that `matrix` gives.
    pub fn edge(&self, s: u128, d: u128) -> bool
        requires covers { Covers W self.now.classes }
        requires disjoint { AreDisjoint self.now.classes }
        requires square { IsSquare (length self.now.classes) self.now.edges }
        requires source { s < 2 ^ W }
        requires destination { d < 2 ^ W }
        ensures { IsEdgeBetween self.now s d result }
    {
        let classes = self.classes.as_slice();
        let Some(from) = class_of(classes, s) else {
            return false;
        };
        let Some(to) = class_of(classes, d) else {
            return false;
        };
        match self.edges.as_slice().get(from) {
            Some(row) => row.as_slice().get(to).copied().unwrap_or(false),
            None => false,
        }
    }
}
