ghost use Rattle.std.specs.Prelude.{map, IfOk, IsErrOf};
ghost use Rattle.primitives.specs.Holds.{IsValid};
ghost use Rattle.primitives.specs.declared.prim.Packet.{Packet as Asked};
ghost use Rattle.request.specs.Fields.{IsAsked};
ghost use Rattle.request.specs.Requests.{width_of};

use crate::SpellFault;
use crate::fields::{address, are_fields, flags, icmp_type, name, port, protocol, state};
use primitives::Packet;
use std::alloc::Global;

/// The packet of arguments `FIELD=VALUE`. A missing name is empty, a missing state is NEW, and any other missing field is 0.
/// Addresses are those of the family, IPv6 ones where `six` is true.
///
/// # Errors
///
/// `Usage` exactly where an argument begins with no field's name and `=`, a field comes twice, or a value isn't of the field's
/// grammar; or `Memory`.
pub fn packet_of(alloc: Global, six: bool, arguments: &[&str]) -> Result<Packet, SpellFault>
    ensures ok { IfOk result (IsAsked six (map (λ s. s.now) arguments.now)) }
    ensures valid { IfOk result (IsValid (width_of six)) }
    ensures usage { IsErrOf result SpellFault.Usage → (p : Asked) → IsAsked six (map (λ s. s.now) arguments.now) p → ⊥ }
{
    if !are_fields(arguments) {
        return Err(SpellFault::Usage);
    }
    Ok(Packet {
        src: address(six, b"src=", arguments)?,
        dst: address(six, b"dst=", arguments)?,
        proto: protocol(b"proto=", arguments)?,
        sport: port(b"sport=", arguments)?,
        dport: port(b"dport=", arguments)?,
        flags: flags(b"flags=", arguments)?,
        state: state(b"state=", arguments)?,
        icmp: icmp_type(b"icmp=", arguments)?,
        in_name: name(alloc, b"in=", arguments)?,
        out_name: name(alloc, b"out=", arguments)?,
    })
}
