use crate::fault::ReadFault;
use crate::line_reader::{LineReader, take_numbered, take_piece};
use addr_text::Family;
use fw_rule::Dump;
use primitives::Prim_;
use std::alloc::Global;
use std::marker::PhantomData;

/// A reader of a dump that takes the text in pieces, as it comes, and keeps what the lines say and not their bytes. Of
/// the text it keeps the line alone that isn't ended yet.
///
/// Once a call failed, each later one fails with the same fault.
#[derive(Drop)]
pub struct Reading<F, const W: u32> {
    /// What the bytes so far say.
    reader: LineReader<W>,
    /// How many bytes came.
    size: u32,
    /// The fault, where there was one.
    fault: Option<ReadFault>,
    /// The family of the addresses.
    family: PhantomData<F>,
}

impl<F: Family<W>, const W: u32> Reading<F, W> {
    ghost use Rattle.std.specs.Prelude.{◌≡◌, ◌≤◌, ◌+◌, ◌++◌, [], ℕ, List as Seq, None, Some, Ok, Err, IfErr, IfOk, OnOk, length};
    ghost use Rattle.limits.specs.declared.TheConstants.{MOST_BYTES};
    ghost use Rattle.fw_rule.specs.Calls.{HasRoom};
    ghost use Rattle.interval_set.specs.Numbers.{IsWidth};
    ghost use Rattle.dump_grammar.specs.Reads.{IsDump};
    ghost use Rattle.dump_read.specs.declared.fault.ReadFault.{ReadFault};
    ghost use Rattle.dump_read.specs.Answers.{HasAtMost, IsFaultOf, IsPrintableDump};
    ghost use Rattle.dump_read.specs.Pieces.{IsEarlyFaultOf, IsReading, StandsFor};

    /// The reader before the first byte. It takes no memory.
    pub fn new(alloc: Global) -> Reading<F, W>
        ensures { StandsFor W F.Reads result [] }
    {
        Reading {
            reader: LineReader::new(alloc),
            size: 0,
            fault: None,
            family: PhantomData,
        }
    }

    /// Reads the next piece of the text, which has at most `limits::MOST_BYTES` bytes so far.
    ///
    /// # Errors
    ///
    /// `Malformed` exactly where a line that a line feed ends can't stand where it stands. `Memory` where memory runs out.
    pub fn feed(&mut self, alloc: Global, piece: &[u8]) -> Result<(), ReadFault>
        requires width { IsWidth W }
        requires reads { IsReading W F.Reads self.old }
        requires size { self.old.fault ≡ None → self.old.size + length piece.now ≤ MOST_BYTES }
        ensures ok { OnOk result ((text : Seq ℕ) → StandsFor W F.Reads self.old text → StandsFor W F.Reads self.new (text ++ piece.now)) }
        ensures fault { IfErr result (λ fault. (text : Seq ℕ) → StandsFor W F.Reads self.old text → IsEarlyFaultOf W F.Reads (text ++ piece.now) fault) }
        ensures fails { IfErr result (λ fault. self.new.fault ≡ Some fault) }
        ensures failed { (fault : ReadFault) → self.old.fault ≡ Some fault → (result ≡ Err fault) × (self.new ≡ self.old) }
    {
        if let Some(fault) = self.fault {
            return Err(fault);
        }
        self.size += piece.len() as u32;
        match take_piece::<F, W>(alloc, &mut self.reader, piece) {
            Ok(()) => Ok(()),
            Err(fault) => {
                self.fault = Some(fault);
                Err(fault)
            }
        }
    }

    /// The dump that the whole text is. It has at most `limits::MOST_BYTES` chains, each chain so many rules, and each
    /// rule so many literals.
    ///
    /// # Errors
    ///
    /// `Malformed` exactly where a line can't stand where it stands, or a table is open at the end; else `NoFilter` exactly
    /// where there is no table `filter`; else `UndefinedChain` exactly where a rule's chain isn't declared or its `-g` names
    /// no declared user chain. `Memory` where memory runs out. Where `feed` failed, its fault.
    pub fn finish(self, alloc: Global) -> Result<Dump<Prim_<W>>, ReadFault>
        requires width { IsWidth W }
        requires reads { IsReading W F.Reads self }
        ensures ok { IfOk result (λ dump. (text : Seq ℕ) → StandsFor W F.Reads self text → IsDump W F.Reads text dump) }
        ensures fault { IfErr result (λ fault. (text : Seq ℕ) → StandsFor W F.Reads self text → IsFaultOf W F.Reads text fault) }
        ensures few { IfOk result (HasAtMost MOST_BYTES) }
        ensures room { IfOk result HasRoom }
        ensures printable { IfOk result IsPrintableDump }
        ensures failed { (fault : ReadFault) → self.fault ≡ Some fault → result ≡ Err fault }
    {
        let Reading { reader, fault, .. } = self;
        if let Some(fault) = fault {
            return Err(fault);
        }
        let LineReader {
            mut state,
            count,
            unfinished,
        } = reader;
        if unfinished.is_empty() {
            return state.end(count);
        }
        take_numbered::<F, W>(alloc, &mut state, &unfinished, count + 1)?;
        state.end(count + 1)
    }
}
