ghost use Rattle.std.specs.Prelude.{◌≡◌, AllPairs, map};
ghost use Rattle.opt_table.specs.Options.{known_options};
ghost use Rattle.opt_table.specs.Rows.{HasOtherTexts, spelling_of};

use crate::{Kind, Messages, Row, Side, Table, Transport};

/// The options that a reader knows: six that need no module, and sixteen of modules.
pub fn options() -> Table<22>
    ensures rows { map spelling_of result.rows.now ≡ known_options }
    // No two rows have both texts equal.
    ensures distinct { AllPairs HasOtherTexts result.rows.now }
{
    Table::new(&ROWS)
}

static ROWS: [Row; 22] = [
    Row {
        module: b"",
        option: b"-s",
        arity: 1,
        kind: Kind::Base,
    },
    Row {
        module: b"",
        option: b"-d",
        arity: 1,
        kind: Kind::Base,
    },
    Row {
        module: b"",
        option: b"-i",
        arity: 1,
        kind: Kind::Base,
    },
    Row {
        module: b"",
        option: b"-o",
        arity: 1,
        kind: Kind::Base,
    },
    Row {
        module: b"",
        option: b"-p",
        arity: 1,
        kind: Kind::Base,
    },
    Row {
        module: b"",
        option: b"-f",
        arity: 0,
        kind: Kind::Base,
    },
    Row {
        module: b"tcp",
        option: b"--sport",
        arity: 1,
        kind: Kind::Port(Transport::Tcp, Side::Source),
    },
    Row {
        module: b"tcp",
        option: b"--dport",
        arity: 1,
        kind: Kind::Port(Transport::Tcp, Side::Destination),
    },
    Row {
        module: b"udp",
        option: b"--sport",
        arity: 1,
        kind: Kind::Port(Transport::Udp, Side::Source),
    },
    Row {
        module: b"udp",
        option: b"--dport",
        arity: 1,
        kind: Kind::Port(Transport::Udp, Side::Destination),
    },
    Row {
        module: b"tcp",
        option: b"--tcp-flags",
        arity: 2,
        kind: Kind::Flags,
    },
    Row {
        module: b"tcp",
        option: b"--syn",
        arity: 0,
        kind: Kind::Syn,
    },
    Row {
        module: b"multiport",
        option: b"--sports",
        arity: 1,
        kind: Kind::Ports(Side::Source),
    },
    Row {
        module: b"multiport",
        option: b"--dports",
        arity: 1,
        kind: Kind::Ports(Side::Destination),
    },
    Row {
        module: b"multiport",
        option: b"--ports",
        arity: 1,
        kind: Kind::EitherPorts,
    },
    Row {
        module: b"iprange",
        option: b"--src-range",
        arity: 1,
        kind: Kind::Addresses(Side::Source),
    },
    Row {
        module: b"iprange",
        option: b"--dst-range",
        arity: 1,
        kind: Kind::Addresses(Side::Destination),
    },
    Row {
        module: b"state",
        option: b"--state",
        arity: 1,
        kind: Kind::States,
    },
    Row {
        module: b"conntrack",
        option: b"--ctstate",
        arity: 1,
        kind: Kind::States,
    },
    Row {
        module: b"comment",
        option: b"--comment",
        arity: 1,
        kind: Kind::Comment,
    },
    Row {
        module: b"icmp",
        option: b"--icmp-type",
        arity: 1,
        kind: Kind::IcmpType(Messages::Icmp),
    },
    Row {
        module: b"icmp6",
        option: b"--icmpv6-type",
        arity: 1,
        kind: Kind::IcmpType(Messages::Icmpv6),
    },
];
