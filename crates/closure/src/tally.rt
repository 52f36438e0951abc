ghost use Rattle.std.specs.Prelude.{◌≡◌, ◌+◌, ◌++◌, [], OnOk};
ghost use Rattle.closure.specs.inner.Counts.{capped};
ghost use Rattle.closure.specs.inner.Ways as spec;

use std::alloc::{AllocError, Global};

/// Leaves `up` blocks more than the one around it, under a condition of so many literals. The number stops at 2^64 - 1.
#[derive(Clone, Copy, Debug, PartialEq, Eq)]
pub struct Way {
    pub up: u32,
    pub literals: u64,
}

/// What is counted of items that were passed: the literals of what doesn't hold behind them, those of their flat rules, and the ways out. A number stops at 2^64 - 1.
#[derive(Debug, Drop)]
pub(crate) struct Tally {
    pub past: u64,
    pub total: u64,
    pub ways: Vec<Way>,
}

/// Of no items.
pub(crate) fn no_tally(alloc: Global) -> Tally
    ensures past { result.past ≡ 0 }
    ensures total { result.total ≡ 0 }
    ensures ways { result.ways.items ≡ [] }
{
    Tally {
        past: 0,
        total: 0,
        ways: Vec::new(alloc),
    }
}

/// Adds a way out, if it leaves more than its own block.
fn escape(past: u64, ways: &mut Vec<Way>, n: u32, literals: u64) -> Result<(), AllocError>
    ensures { OnOk result (ways.new.items ≡ ways.old.items ++ spec.escape past n literals) }
{
    if n == 0 {
        return Ok(());
    }
    ways.push(Way {
        up: n - 1,
        literals: past.saturating_add(literals),
    })?;
    Ok(())
}

/// Adds the ways out of a block that leave the block around it too.
fn carry(past: u64, ways: &mut Vec<Way>, literals: u64, inner: &[Way]) -> Result<(), AllocError>
    ensures { OnOk result (ways.new.items ≡ ways.old.items ++ spec.carried past literals inner.now) }
{
    for way in inner {
        let condition = literals.saturating_add(way.literals);
        escape(past, ways, way.up, condition)?;
    }
    Ok(())
}

/// The literals of what doesn't hold behind a block.
fn stay(literals: u64, inner: &[Way]) -> u64
    ensures { result ≡ capped (spec.stayed literals inner.now) }
{
    let mut count: u64 = 0;
    for way in inner {
        let condition = literals.saturating_add(way.literals);
        count = count.saturating_add(condition);
    }
    count
}

impl Tally {
    /// Past an item that leaves.
    pub(crate) fn leave(&mut self, literals: u64, n: u32) -> Result<(), AllocError>
        ensures past { OnOk result (self.new.past ≡ capped (self.old.past + literals)) }
        ensures total { OnOk result (self.new.total ≡ self.old.total) }
        ensures ways { OnOk result (self.new.ways.items ≡ self.old.ways.items ++ spec.escape self.old.past n literals) }
    {
        escape(self.past, &mut self.ways, n, literals)?;
        self.past = self.past.saturating_add(literals);
        Ok(())
    }

    /// Past a block.
    pub(crate) fn run(&mut self, literals: u64, inner: &Tally) -> Result<(), AllocError>
        ensures past { OnOk result (self.new.past ≡ capped (self.old.past + spec.stayed literals inner.now.ways.items)) }
        ensures total { OnOk result (self.new.total ≡ capped (self.old.total + inner.now.total)) }
        ensures ways { OnOk result (self.new.ways.items ≡ self.old.ways.items ++ spec.carried self.old.past literals inner.now.ways.items) }
    {
        carry(self.past, &mut self.ways, literals, inner.ways.as_slice())?;
        let behind = stay(literals, inner.ways.as_slice());
        self.past = self.past.saturating_add(behind);
        self.total = self.total.saturating_add(inner.total);
        Ok(())
    }
}
