ghost use Rattle.fw_rule.specs.Walk.{Settled};
ghost use Rattle.simple_filter.specs.Laws.{CallsStay, MayWidens, MustNarrows, NothingChanges, SettledStays};

use fw_rule::Dump;
use primitives::{Packet, Prim_};

/// Where nothing is hidden the dump stays as it is.
pub fn hiding_nothing<const W: u32>(dump: &Dump<Prim_<W>>)
    ensures { NothingChanges dump.now }
{}

/// Whatever is hidden, a chain is settled before and after or neither time.
pub fn hiding_keeps_settled<const W: u32>(dump: &Dump<Prim_<W>>)
    ensures { SettledStays dump.now }
{}

/// Whatever is hidden, numbers fit, calls name chains and chains have their policies as before.
pub fn hiding_keeps_calls<const W: u32>(dump: &Dump<Prim_<W>>)
    ensures { CallsStay dump.now }
{}

/// What may be accepted may be accepted after names are hidden.
pub fn hiding_widens_may<const W: u32>(dump: &Dump<Prim_<W>>, chain: u32, p: &Packet)
    ensures { MayWidens dump.now chain p.now }
{}

/// In a settled dump what must be accepted after names are hidden must be accepted before.
pub fn hiding_narrows_must<const W: u32>(dump: &Dump<Prim_<W>>, chain: u32, p: &Packet)
    requires { Settled dump.now chain }
    ensures { MustNarrows dump.now chain p.now }
{}
