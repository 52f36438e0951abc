ghost use Rattle.std.specs.Prelude.{◌≡◌};
ghost use Rattle.opt_table.specs.Rows.{messages_number, transport_number};

/// An end of a packet's way.
#[derive(Clone, Copy)]
pub enum Side {
    /// Where it comes from: its source, its source port and its input interface.
    Source,
    /// Where it goes to: its destination, its destination port and its output interface.
    Destination,
}

/// A protocol whose module has options for its own ports.
#[derive(Clone, Copy)]
pub enum Transport {
    Tcp,
    Udp,
}

impl Transport {
    /// The number of the protocol, as IANA assigns it.
    pub fn number(self) -> u8
        ensures { result ≡ transport_number self }
    {
        match self {
            Transport::Tcp => 6,
            Transport::Udp => 17,
        }
    }
}

/// A protocol whose messages have a type.
#[derive(Clone, Copy)]
pub enum Messages {
    Icmp,
    Icmpv6,
}

impl Messages {
    /// The number of the protocol, as IANA assigns it.
    pub fn number(self) -> u8
        ensures { result ≡ messages_number self }
    {
        match self {
            Messages::Icmp => 1,
            Messages::Icmpv6 => 58,
        }
    }
}

/// What an option says of a packet.
#[derive(Clone, Copy)]
pub enum Kind {
    /// Needs no module.
    Base,
    /// A port of one of these protocols.
    Port(Transport, Side),
    /// Flags of TCP.
    Flags,
    /// The flags of a packet that opens a connection.
    Syn,
    /// A list of ports.
    Ports(Side),
    /// A list in which one of the two ports is.
    EitherPorts,
    /// A range of addresses.
    Addresses(Side),
    /// States of connections.
    States,
    /// Nothing.
    Comment,
    /// The type of a message of this protocol.
    IcmpType(Messages),
}
