//! How much a run may take: each limit of the program, as one named constant. Code and definitions cite it from here.
#![tactic(auto)]

ghost use Rattle.std.specs.Prelude.{◌≡◌};

/// The most bytes that an input has.
pub const MOST_BYTES: usize = 16_777_216;

/// The most chains that stand on a path of calls and gotos.
pub const MOST_CHAINS: u32 = 256;

/// The most items that a rewriting has, at all depths. It is told as `nodes`.
pub const MOST_NODES: u64 = 262_144;

/// The most literals that the flat list of a rewriting has.
pub const MOST_LITERALS: u64 = 4_194_304;

/// The most cubes that a list has which a cut gives. It is told as `boxes`.
pub const MOST_CUBES: usize = 16_384;

/// The most simple rules that a chain is closed into.
pub const MOST_RULES: usize = 131_072;

/// The most rule lines that a filter is printed on.
pub const MOST_LINES: u64 = 262_144;

/// The most boundaries of address sets that a matrix is made over. It is told as `atoms`.
pub const MOST_BOUNDARIES: usize = 4_096;

/// The most pieces that a searched region falls into. It is told as `regions`.
pub const MOST_REGIONS: usize = 65_536;

/// The most visits of rules that an explanation goes through.
pub const MOST_VISITS: u64 = 16_777_216;

/// The numbers themselves. Code and definitions cite them by name, so that this one place says what they are.
pub fn are_these()
    ensures input { (MOST_BYTES ≡ 16777216) × (MOST_CHAINS ≡ 256) × (MOST_VISITS ≡ 16777216) }
    ensures filters { (MOST_NODES ≡ 262144) × (MOST_LITERALS ≡ 4194304) × (MOST_CUBES ≡ 16384) × (MOST_RULES ≡ 131072) × (MOST_LINES ≡ 262144) }
    ensures questions { (MOST_BOUNDARIES ≡ 4096) × (MOST_REGIONS ≡ 65536) }
{}
