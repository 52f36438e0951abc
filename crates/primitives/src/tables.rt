//! The table of each kind of word.
ghost use Rattle.std.specs.Prelude.{◌≡◌, map};
ghost use Rattle.primitives.specs.Tables.{number_in};
ghost use Rattle.primitives.specs.inner.Rows.{named};

/// A name and the number that it stands for.
pub(crate) struct Word {
    pub name: &'static [u8],
    pub number: u8,
}

/// Protocols by their numbers, as IANA assigns them. The first name of a number is the one that is printed.
pub(crate) static PROTOCOLS: [Word; 12] = [
    Word {
        name: b"icmp",
        number: 1,
    },
    Word {
        name: b"igmp",
        number: 2,
    },
    Word {
        name: b"tcp",
        number: 6,
    },
    Word {
        name: b"udp",
        number: 17,
    },
    Word {
        name: b"dccp",
        number: 33,
    },
    Word {
        name: b"gre",
        number: 47,
    },
    Word {
        name: b"esp",
        number: 50,
    },
    Word {
        name: b"ah",
        number: 51,
    },
    Word {
        name: b"ipv6-icmp",
        number: 58,
    },
    Word {
        name: b"icmpv6",
        number: 58,
    },
    Word {
        name: b"sctp",
        number: 132,
    },
    Word {
        name: b"udplite",
        number: 136,
    },
];

/// States of a connection by their numbers, as iptables-extensions(8) names them for conntrack.
pub(crate) static STATES: [Word; 5] = [
    Word {
        name: b"INVALID",
        number: 0,
    },
    Word {
        name: b"NEW",
        number: 1,
    },
    Word {
        name: b"RELATED",
        number: 2,
    },
    Word {
        name: b"ESTABLISHED",
        number: 3,
    },
    Word {
        name: b"UNTRACKED",
        number: 4,
    },
];

/// Flags of tcp by the places of their bits.
pub(crate) static FLAGS: [Word; 6] = [
    Word {
        name: b"FIN",
        number: 0,
    },
    Word {
        name: b"SYN",
        number: 1,
    },
    Word {
        name: b"RST",
        number: 2,
    },
    Word {
        name: b"PSH",
        number: 3,
    },
    Word {
        name: b"ACK",
        number: 4,
    },
    Word {
        name: b"URG",
        number: 5,
    },
];

/// The number of the first word of that name.
pub(crate) fn number_of(words: &[Word], text: &[u8]) -> Option<u8>
    ensures { result ≡ number_in (map named words.now) text.now }
{
    for word in words {
        if word.name == text {
            return Some(word.number);
        }
    }
    None
}
