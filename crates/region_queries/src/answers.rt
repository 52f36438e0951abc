use fw_rule::{Place, Step};
use match_expr::List;
use primitives::Packet;

/// Whether one dump must accept all that another may accept.
#[derive(Drop)]
pub enum Cover {
    /// It must.
    Holds,
    /// The other may accept this packet, and it isn't so that the one must.
    Fails(Packet),
}

/// What triggers a visit: the walk of the packet, where the unknown literals at these places hold, comes to the rule over the
/// calls and gotos before it, and the rule matches there.
#[derive(Drop)]
pub struct Live {
    pub packet: Packet,
    pub places: List<Place>,
}

/// A rule over the calls and gotos on which it is met.
#[derive(Drop)]
pub struct Visit {
    /// The calls and gotos, the outermost first, then the rule itself.
    pub steps: List<Step>,
    /// None where nothing triggers it.
    pub live: Option<Live>,
}
