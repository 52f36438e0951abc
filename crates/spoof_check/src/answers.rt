use primitives::Packet;

/// What is said of the packets that open a connection (their state is NEW), and come in by an interface with a source that isn't among
/// its own. Nothing is said of packets of other states.
#[derive(Drop)]
pub enum Spoof {
    /// None of them may be accepted.
    Holds,
    /// This one may.
    Violated(Packet),
}
