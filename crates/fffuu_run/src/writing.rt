ghost use Rattle.std.specs.Prelude.{◌≡◌, ◌≤◌, ◌++◌, List, ℕ, OnOk, OnErr};
ghost use Rattle.std.specs.Io.KnownBytes.{Appends};
ghost use Rattle.fw_io.specs.Causes.{Rose};
ghost use Rattle.fffuu_run.specs.Runs.{AcknowledgesPart, AppendsPart};

use fw_io::{Failed, Sink};

/// Writes the whole text, or up to the first fault. What the sink leaves of it is offered again.
pub fn write_all<O: Sink>(out: &mut O, text: &[u8]) -> Result<(), Failed>
    ensures ok { OnOk result (Appends (O.held out.old) (O.held out.new) text.now) }
    ensures part { OnErr result ((sent rest : List ℕ) × AppendsPart (O.held out.old) (O.held out.new) text.now sent rest) }
    ensures failed { OnErr result (Rose (O.faults out.old) (O.faults out.new)) }
    ensures later { O.faults out.old ≤ O.faults out.new }
    ensures steady { OnOk result (O.faults out.new ≡ O.faults out.old) }
    ensures acknowledged { OnOk result (O.acknowledged out.new ≡ O.acknowledged out.old ++ text.now) }
    ensures part_acknowledged { OnErr result ((sent rest : List ℕ)
        × AcknowledgesPart (O.acknowledged out.old) (O.acknowledged out.new) text.now sent rest) }
{
    let mut at = 0;
    while at < text.len() {
        at += out.write(&text[at..])?;
    }
    Ok(())
}
