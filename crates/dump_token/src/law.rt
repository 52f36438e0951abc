ghost use Rattle.dump_token.specs.Words.{ExcludeEachOther, HasOneList};

/// That a line has at most one list of words, and has none where it leaves a quote open. The call
/// itself does nothing: its contract is the law.
pub fn one_reading(line: &[u8])
    ensures one { HasOneList line.now }
    ensures either { ExcludeEachOther line.now }
{
    let _ = line;
}
