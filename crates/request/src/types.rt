ghost use Rattle.std.specs.Prelude.{◌≡◌};
ghost use Rattle.request.specs.declared.types.SpellFault.TheVariants.{Memory};

use fw_rule::Side;
use iface_space::Hop;
use interval_set::Range;
use match_expr::{Bytes, List};
use primitives::Packet;
use service_packet::Service;
use std::alloc::{AllocError, AllocFailed};
use thiserror::Error;

/// What is asked of a filter.
#[derive(Drop)]
pub enum Mode {
    /// Whether the calls of a chain end, and how large the table is.
    Check,
    /// A filter that accepts what a chain may accept.
    Upper,
    /// A filter that accepts what a chain must accept.
    Lower,
    /// Which addresses may open a service to which.
    Matrix {
        /// The service.
        service: Service,
        /// Whether an edge stands where its packet may be accepted, or where it must be.
        side: Side,
        /// Interfaces with the sources that live behind each. No two have one name or a common address.
        zones: List<Claim>,
        /// Routes, as they were given. No two have the same prefix.
        hops: List<Hop>,
    },
    /// Whether packets that open a connection may pass interfaces with forged sources: each of these with the addresses that live behind it.
    Spoof(List<Claim>),
    /// For this packet the meanings of two walks of a chain, one that accepts it and one that drops it.
    Explain(Packet),
    /// How large the filters of a generated dump of so many rules are, from 1 to 1000.
    Load(u32),
    /// Whether the second dump of a text must accept all that the first may accept.
    Cover,
    /// What interfaces with these sources leave out: addresses, and names that rules test. No two have one name or a common address.
    Zones(List<Claim>),
    /// Where these routes send packets, and what they leave out: addresses, and names that rules test. No two have the same prefix.
    Routes(List<Hop>),
}

/// That the addresses behind an interface are these.
#[derive(Drop)]
pub struct Claim {
    /// The name of the interface.
    pub name: Bytes,
    /// Ranges of addresses, as they were given.
    pub inside: List<Range>,
}

/// What a command line asks for.
#[derive(Drop)]
pub struct Request {
    /// What is asked, with its arguments.
    pub mode: Mode,
    /// The name of the chain that is asked about.
    pub chain: Bytes,
    /// Whether addresses are IPv6 ones. They are IPv4 ones else.
    pub six: bool,
}

/// Why words give no request.
#[derive(Clone, Copy, Debug, PartialEq, Eq, Error)]
pub enum SpellFault {
    /// The words spell no request.
    #[error("the words spell no request")]
    Usage,
    /// Memory ran out.
    #[error("out of memory")]
    Memory,
}

impl From<AllocError> for SpellFault {
    ghost from_gives = { λ _ e. e ≡ Memory };

    fn from(_: AllocError) -> Self {
        SpellFault::Memory
    }
}

impl<T: Drop> From<AllocFailed<T>> for SpellFault {
    ghost from_gives = { λ _ e. e ≡ Memory };

    fn from(_: AllocFailed<T>) -> Self {
        SpellFault::Memory
    }
}
