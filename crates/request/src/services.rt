ghost use Rattle.std.specs.Prelude.{IfSome, IfNone};
ghost use Rattle.service_packet.specs.declared.service.Service.{Service as Asked};
ghost use Rattle.request.specs.Arguments.{IsService};

use crate::fields::read_port;
use basics::parted;
use primitives::read_proto;
use service_packet::Service;

/// The service of a text `PROTO:SPORT:DPORT`: a protocol's name or its number to 255, and two numbers of ports to 65535.
/// `None` exactly where the text is no such text.
pub fn service_of(text: &[u8]) -> Option<Service>
    ensures some { IfSome result (IsService text.now) }
    ensures none { IfNone result ((service : Asked) → IsService text.now service → ⊥) }
{
    let (proto, ports) = parted(text, b':')?;
    let (sport, dport) = parted(ports, b':')?;
    Some(Service {
        proto: read_proto(proto)?,
        sport: read_port(sport)?,
        dport: read_port(dport)?,
    })
}
