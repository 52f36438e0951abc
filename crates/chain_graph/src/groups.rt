ghost use Rattle.std.specs.Prelude.{◌≡◌, get_or};

use fw_rule::{Dump, Rule};
use match_expr::Primitive;
use std::alloc::{AllocError, Global};

/// The number of a chain, or 0 past the last number.
pub(crate) fn number_of(numbers: &[u32], chain: u32) -> u32
    ensures { result ≡ get_or numbers.now chain 0 }
{
    match numbers.get(chain as usize) {
        Some(number) => *number,
        None => 0,
    }
}

// Gives a chain this number, where it has a place.
fn set_number(numbers: &mut [u32], chain: u32, number: u32) {
    if let Some(place) = numbers.get_mut(chain as usize) {
        *place = number;
    }
}

// What a search does next with a chain: a chain is left when all that it calls were left or are open.
#[derive(Clone, Copy)]
enum Turn {
    Enter(u32),
    Leave(u32),
}

// Tarjan's search for strongly connected components. Nothing is promised of it: whoever uses its groups has to check what they are used for.
#[derive(Drop)]
struct Search {
    // 0 for a chain that isn't entered, u32::MAX for one whose group is known, else the least entry that it was seen to reach.
    low: Vec<u32>,
    groups: Vec<u32>,
    // The chains that were entered and have no group yet, in the order of their entry.
    open: Vec<u32>,
    todo: Vec<Turn>,
    entries: u32,
    known: u32,
}

impl Search {
    fn new(alloc: Global, chains: usize, first: u32) -> Result<Search, AllocError> {
        Ok(Search {
            low: vec![in alloc; 0; chains]?,
            groups: vec![in alloc; 0; chains]?,
            open: Vec::new(alloc),
            todo: vec![in alloc; Turn::Enter(first)]?,
            entries: 0,
            known: 0,
        })
    }

    fn enter<P: Primitive>(&mut self, rules: &[Rule<P>], chain: u32) -> Result<(), AllocError> {
        if number_of(&self.low, chain) > 0 {
            return Ok(());
        }
        self.entries = self.entries.saturating_add(1);
        set_number(&mut self.low, chain, self.entries);
        self.open.push(chain)?;
        self.todo.push(Turn::Leave(chain))?;
        for rule in rules {
            if let Some(callee) = rule.action.target() {
                self.todo.push(Turn::Enter(callee))?;
            }
        }
        Ok(())
    }

    fn leave<P: Primitive>(&mut self, rules: &[Rule<P>], chain: u32) {
        let entry = number_of(&self.low, chain);
        let mut least = entry;
        for rule in rules {
            if let Some(callee) = rule.action.target() {
                least = least.min(number_of(&self.low, callee));
            }
        }
        if least < entry {
            set_number(&mut self.low, chain, least);
        } else {
            self.close(chain);
        }
    }

    // The chains that are open since this one was entered are a group.
    fn close(&mut self, chain: u32) {
        while let Some(last) = self.open.pop() {
            set_number(&mut self.low, last, u32::MAX);
            set_number(&mut self.groups, last, self.known);
            if last == chain {
                break;
            }
        }
        self.known = self.known.saturating_add(1);
    }
}

// How many turns a search takes at most: each chain is left once, and entered or passed over once a call.
fn turns<P: Primitive>(dump: &Dump<P>) -> usize {
    let mut all = 1usize;
    for chain in dump.chains.as_slice() {
        all = all.saturating_add(chain.rules.as_slice().len());
        all = all.saturating_add(1);
    }
    all
}

/// For each chain that a chain reaches the number of its group: chains that reach one another are a group, and a call leads to no greater number.
/// That is so and isn't proved, so a user has to check it.
pub(crate) fn groups_of<P: Primitive>(
    alloc: Global,
    dump: &Dump<P>,
    chain: u32,
) -> Result<Vec<u32>, AllocError> {
    let chains = dump.chains.as_slice();
    let mut search = Search::new(alloc, chains.len(), chain)?;
    for _ in 0..turns(dump) {
        let Some(turn) = search.todo.pop() else {
            break;
        };
        match turn {
            Turn::Enter(next) => {
                if let Some(here) = chains.get(next as usize) {
                    search.enter(here.rules.as_slice(), next)?;
                }
            }
            Turn::Leave(next) => {
                if let Some(here) = chains.get(next as usize) {
                    search.leave(here.rules.as_slice(), next);
                }
            }
        }
    }
    let Search { groups, .. } = search;
    Ok(groups)
}
