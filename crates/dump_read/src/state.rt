use crate::fault::ReadFault;
use chain_names::ChainNames;
use fw_rule::{Chain, Dump};
use match_expr::List;
use primitives::Prim_;
use std::alloc::Global;

/// In which part of a text a line stands.
#[derive(Clone, Copy, Debug, PartialEq, Eq)]
pub(crate) enum Part {
    /// Outside a table.
    Outside,
    /// In a table that is passed over.
    Passed,
    /// In the table `filter`.
    Filter,
}

/// What was read of a text so far.
#[derive(Drop)]
pub(crate) struct State<const W: u32> {
    /// The part that the next line stands in.
    pub part: Part,
    /// Whether `filter` was opened.
    pub has_filter: bool,
    /// Whether a rule came.
    pub has_rules: bool,
    /// The names of the chains.
    pub names: ChainNames,
    /// The chains, with their rules so far.
    pub chains: Vec<Chain<Prim_<W>>>,
    /// The line of the first rule whose chain isn't declared, or whose `-g` names no declared user chain.
    pub undefined: Option<u32>,
}

impl<const W: u32> State<W> {
    ghost use Rattle.std.specs.Prelude.{◌≤◌, None, IfErr, IfOk};
    ghost use Rattle.limits.specs.declared.TheConstants.{MOST_BYTES};
    ghost use Rattle.dump_read.specs.inner.Positions.{Position};
    ghost use Rattle.dump_read.specs.inner.States.{EndsAs, EndsWith, Shows};

    /// The state before the first line.
    pub(crate) fn new(alloc: Global) -> State<W>
        ensures { Shows result (Position.Outside None) }
    {
        State {
            part: Part::Outside,
            has_filter: false,
            has_rules: false,
            names: ChainNames::new(alloc),
            chains: Vec::new(alloc),
            undefined: None,
        }
    }
    /// What the text is, of which so many lines were taken.
    pub(crate) fn end(self, lines: u32) -> Result<Dump<Prim_<W>>, ReadFault>
        requires { lines ≤ MOST_BYTES }
        ensures ok { IfOk result (λ dump. (p : Position W) → Shows self.entry p → EndsAs p dump) }
        ensures fault { IfErr result (λ fault. (p : Position W) → Shows self.entry p → EndsWith p lines fault) }
    {
        if self.part != Part::Outside {
            return Err(ReadFault::Malformed { line: lines + 1 });
        }
        if !self.has_filter {
            return Err(ReadFault::NoFilter);
        }
        if let Some(line) = self.undefined {
            return Err(ReadFault::UndefinedChain { line });
        }
        let State { chains, .. } = self;
        Ok(Dump {
            chains: List::of(chains),
        })
    }
}
