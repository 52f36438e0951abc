ghost use Rattle.std.specs.Prelude.{◌≡◌, ◌≤◌, ◌<◌, Err, IfErr, IfOk, Ok, length};
ghost use Rattle.dump_read.specs.declared.fault.ReadFault.{ReadFault};
ghost use Rattle.interval_set.specs.Numbers.{IsWidth};
ghost use Rattle.limits.specs.declared.TheConstants.{MOST_BYTES};
ghost use Rattle.fffuu_run.specs.Questions.{IsNameOf, asked_chain, is_asked};
ghost use Rattle.fffuu_run.specs.inner.Readings.{IsReadOf, status_of};

use crate::Status;
use addr_text::Family;
use dump_read::{ReadFault, read_dump};
use fw_rule::{Chain, Dump};
use match_expr::{Bytes, Primitive};
use primitives::Prim_;
use std::alloc::{AllocError, Global};

/// What a text was read as.
pub type DumpResult<const W: u32> = Result<Dump<Prim_<W>>, ReadFault>;

/// Reads a whole text.
pub fn read_text<F: Family<W>, const W: u32>(alloc: Global, text: &[u8]) -> DumpResult<W>
    requires width { IsWidth W }
    requires size { length text.now ≤ MOST_BYTES }
    ensures { IsReadOf W F.Reads text.now result }
{
    read_dump::<F, W>(alloc, text)
}

/// The dump that was read, or the status of its fault.
pub fn dump_or_status<const W: u32>(read: DumpResult<W>) -> Result<Dump<Prim_<W>>, Status>
    ensures ok { IfOk result (λ dump. read.entry ≡ Ok dump) }
    ensures fault { IfErr result (λ s. (fault : ReadFault) × ((read.entry ≡ Err fault) × (s ≡ status_of fault))) }
{
    match read {
        Ok(dump) => Ok(dump),
        Err(ReadFault::Malformed { line }) => Err(Status::Malformed { line }),
        Err(ReadFault::NoFilter) => Err(Status::NoFilter),
        Err(ReadFault::UndefinedChain { line }) => Err(Status::UndefinedChain { line }),
        Err(ReadFault::Memory) => Err(Status::Memory),
    }
}

fn is_asked<P: Primitive>(chain: &Chain<P>, name: &[u8]) -> bool
    ensures { result ≡ is_asked name.now chain.now }
{
    chain.policy.is_some() && chain.name.as_slice() == name
}

/// The chain of this name with a policy.
pub fn asked<P: Primitive>(dump: &Dump<P>, name: &[u8]) -> Option<usize>
    ensures { result ≡ asked_chain name.now dump.now }
{
    let chains = dump.chains.as_slice();
    chains.iter().position(|chain| is_asked(chain, name))
}

/// The name of a chain that is there.
pub fn name_of<P: Primitive>(alloc: Global, dump: &Dump<P>, chain: u32) -> Result<Bytes, AllocError>
    requires { chain < length dump.now.chains }
    ensures { IfOk result (IsNameOf dump.now chain) }
{
    let chain = &dump.chains.as_slice()[chain as usize];
    Ok(Bytes::of(Vec::from_slice(alloc, chain.name.as_slice())?))
}
