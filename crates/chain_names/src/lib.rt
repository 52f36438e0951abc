//! The names of chains, numbered in the order in which they are declared.
#![tactic(auto)]

ghost use Rattle.std.specs.Prelude.{◌≡◌, ◌==◌, ◌<◌, ◌+◌, ◌^◌, ◌∷◌, ◌++◌, [], is_some, length, not, position, IfOk, OnErr, if◌then◌else◌};
ghost use Rattle.std.specs.List.{IsDistinct};
ghost use Rattle.std.specs.Str.{bytes_eq};

use indexmap::IndexSet;
use std::alloc::{AllocError, Global};
use std::marker::Model;

/// Names of chains, in the order in which they were declared. No name stands twice, and there are
/// fewer than 2^32.
#[derive(Drop)]
pub struct ChainNames {
    names: IndexSet<Vec<u8>>,
}

impl Model for ChainNames {
    ghost use Rattle.std.specs.Prelude.{ℕ, List, ◌<◌, ◌^◌, length};
    ghost use Rattle.std.specs.Coded.{coded_list, coded_ℕ};

    ghost Value = { List (List ℕ) };

    ghost coded = { coded_list (coded_list coded_ℕ) };

    ghost use Rattle.chain_names.specs.Order.{declared};

    ghost view = { λ s. declared s.names };

    ghost invariant = { λ s. length (declared s.names) < 2 ^ 32 };
}

impl ChainNames {
    /// No names.
    pub fn new(alloc: Global) -> ChainNames
        ensures { result ≡ [] }
    {
        ChainNames {
            names: IndexSet::new(alloc),
        }
    }

    /// Puts the name last. `false` says that it was there before, and then nothing changes, as after
    /// an error.
    pub fn declare(&mut self, alloc: Global, name: &[u8]) -> Result<bool, AllocError>
        requires { length self.old + 1 < 2 ^ 32 }
        ensures added { IfOk result (λ added. added ≡ not (is_some (position (bytes_eq name.now) self.old))) }
        ensures names { IfOk result (λ added. self.new ≡ (if added then self.old ++ name.now ∷ [] else self.old)) }
        ensures err { OnErr result (self.new ≡ self.old) }
    {
        if self.number(name).is_some() {
            return Ok(false);
        }
        let copy = Vec::from_slice(alloc, name)?;
        self.names.insert(copy)?;
        Ok(true)
    }

    /// The number of the name, counted from 0 in the order of declaration. `None` comes exactly
    /// where it isn't declared.
    pub fn number(&self, name: &[u8]) -> Option<u32>
        ensures { result ≡ position (bytes_eq name.now) self.now }
    {
        let Some(index) = self.names.get_index_of(name) else {
            return None;
        };
        Some(index as u32)
    }

    /// How many names there are.
    pub fn len(&self) -> usize
        ensures len { result ≡ length self.now }
        ensures few { length self.now < 2 ^ 32 }
        ensures distinct { IsDistinct bytes_eq self.now }
    {
        self.names.len()
    }

    /// Whether no name is declared.
    pub fn is_empty(&self) -> bool
        ensures { result ≡ (length self.now == 0) }
    {
        self.names.is_empty()
    }
}
