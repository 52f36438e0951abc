//! How what is printed is read back.
ghost use Rattle.std.specs.Prelude.{ℕ, List};
ghost use Rattle.interval_set.specs.declared.set.Range.{Range};
ghost use Rattle.interval_set.specs.Numbers.{IsSet};
ghost use Rattle.dump_print.specs.FlagCover.{CoverFlags};
ghost use Rattle.dump_print.specs.PortCover.{CoverPorts};
ghost use Rattle.dump_print.specs.Written.{KeepsWords};

/// The cubes of a set of flags are apart and together the set: a number of the set matches one of them, and any other
/// number none. The set has a bit for each number of six flags.
pub fn flags_are_kept()
    ensures { (flags : ℕ) → CoverFlags flags }
{}

/// Each list of ports that is printed for a set may stand in a dump and is read as its ranges, and the lists together
/// are the set.
pub fn ports_are_kept()
    ensures { (rs : List Range) → IsSet 16 rs → CoverPorts rs }
{}

/// The words of a printed line are those that were put into it: in quotes any text, and bare one that begins with no
/// quote and has no blank.
pub fn words_are_kept()
    ensures { KeepsWords }
{}
