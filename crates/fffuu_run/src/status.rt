ghost use Rattle.std.specs.Prelude.{◌≡◌};
ghost use Rattle.fffuu_run.specs.Lines.{code_of};
ghost use Rattle.fffuu_run.specs.declared.status.Status.TheVariants.{Memory};

use match_expr::Bytes;
use simple_filter::Kind;
use std::alloc::AllocError;

/// How a run ends.
#[derive(Debug, Drop)]
pub enum Status {
    /// The answer was written.
    Ok,

    /// The words spell no request.
    Usage,

    /// A read failed.
    ReadFault,

    /// A write of the answer failed.
    WriteFault,

    /// The input has more than 16,777,216 bytes.
    InputTooLong,

    /// No line of the input is `%%`, where two dumps are asked about.
    NoDivider,

    /// This line, from 1, is the first outside the grammar; the number of lines plus one where a table is open at the end.
    Malformed { line: u32 },

    /// The text has no table filter.
    NoFilter,

    /// This line is the first rule line of a chain that isn't declared, or whose goto leads to no declared user chain.
    UndefinedChain { line: u32 },

    /// No chain of the asked name has a policy.
    NoChain,

    /// The least line of a rule in the reach of the asked chain whose target isn't supported, and the target's name.
    Unsupported { line: u32, name: Bytes },

    /// The first declared chain in reach that leads to itself over some path.
    CallLoop { name: Bytes },

    /// The number of this kind is past its limit.
    Limit { kind: Kind },

    /// Memory ran out.
    Memory,
}

impl Status {
    /// The number that the program ends with.
    pub fn code(&self) -> u8
        ensures { result ≡ code_of self.now }
    {
        match self {
            Status::Ok => 0,
            Status::Usage => 1,
            Status::ReadFault => 2,
            Status::WriteFault => 3,
            Status::InputTooLong => 4,
            Status::Malformed { .. } => 5,
            Status::NoFilter => 6,
            Status::UndefinedChain { .. } => 7,
            Status::NoChain => 8,
            Status::Unsupported { .. } => 9,
            Status::CallLoop { .. } => 10,
            Status::Limit { .. } => 11,
            Status::Memory => 12,
            Status::NoDivider => 14,
        }
    }
}

impl From<AllocError> for Status {
    ghost from_gives = { λ _ e. e ≡ Memory };

    fn from(_: AllocError) -> Self {
        Status::Memory
    }
}
