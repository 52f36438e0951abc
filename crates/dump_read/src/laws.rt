ghost use Rattle.std.specs.Prelude.{◌≤◌};
ghost use Rattle.dump_read.specs.Laws.{EarlyFaultsStay, ExcludeEachOther, FrontsFit, HasOneAnswer, HasOneDump, HasOneMalformedLine, HasOneUndefinedLine};

use addr_text::Family;

/// That a text is at most one dump, and has at most one malformed line and one undefined line. The call itself does
/// nothing: its contract is the law.
pub fn one_answer<F: Family<W>, const W: u32>(text: &[u8])
    requires { W ≤ 128 }
    ensures dump { HasOneDump W F.Reads text.now }
    ensures malformed { HasOneMalformedLine W F.Reads text.now }
    ensures undefined { HasOneUndefinedLine W F.Reads text.now }
{
    let _ = text;
}

/// That a text is no two of these: a dump, malformed, without a filter, with an undefined line. The call itself does
/// nothing.
pub fn one_kind<F: Family<W>, const W: u32>(text: &[u8])
    requires { W ≤ 128 }
    ensures { ExcludeEachOther W F.Reads text.now }
{
    let _ = text;
}

/// That a text has one answer, a dump or a fault, but for want of memory. So it doesn't hang on how the text is cut into
/// pieces. The call itself does nothing.
pub fn one_reading<F: Family<W>, const W: u32>(text: &[u8])
    requires { W ≤ 128 }
    ensures { HasOneAnswer W F.Reads text.now }
{
    let _ = text;
}

/// That a fault which is told before the end of a text stays one, whatever follows. The call itself does nothing.
pub fn early_faults_stay<F: Family<W>, const W: u32>()
    ensures { EarlyFaultsStay W F.Reads }
{}

/// That a front of lines that fit fits. The call itself does nothing.
pub fn fronts_fit<F: Family<W>, const W: u32>()
    ensures { FrontsFit W F.Reads }
{}
