ghost use Rattle.std.specs.Prelude.{◌≡◌, IfOk};
ghost use Rattle.iface_space.specs.Routed as spec;
ghost use Rattle.iface_space.specs.Routed.{MayStays, MustStays};

use crate::routes::Routes;
use fw_rule::{Dump, Lit, LiteralMap};
use match_expr::Expr;
use primitives::{Packet, Prim_};
use std::alloc::{AllocError, Global};

impl<const W: u32> LiteralMap<Prim_<W>> for Routes<W> {
    ghost use Rattle.iface_space.specs.Routed.{routed_literal};

    ghost image = { λ routes lit. routed_literal routes lit };

    fn literal(&self, alloc: Global, lit: &Lit<Prim_<W>>) -> Result<Lit<Prim_<W>>, AllocError> {
        match lit {
            Lit::Known {
                neg,
                expr: Expr::Prim(Prim_::OutName(pattern)),
            } => Ok(Lit::Known {
                neg: *neg,
                expr: Expr::Prim(Prim_::Dst(self.targets(alloc, pattern)?)),
            }),
            _ => lit.copy(alloc),
        }
    }
}

/// The dump with a test of the destination in place of each known literal that tests the name of the output interface: of
/// the addresses that are sent out by an interface whose name its pattern matches. Negations, numbers and all else stay.
/// The one refusal is want of memory.
pub fn routed<const W: u32>(
    alloc: Global,
    dump: &Dump<Prim_<W>>,
    routes: &Routes<W>,
) -> Result<Dump<Prim_<W>>, AllocError>
    ensures { IfOk result (λ d. d ≡ spec.routed routes.now dump.now) }
{
    dump.mapped(alloc, routes)
}

/// Of a valid packet that goes out by the interface that the longest prefix of its destination names, the routed dump says
/// what the dump itself says: whether it may be accepted, and whether it must be.
pub fn routed_is_exact<const W: u32>(
    dump: &Dump<Prim_<W>>,
    routes: &Routes<W>,
    chain: u32,
    p: &Packet,
)
    ensures may { MayStays routes.now dump.now chain p.now }
    ensures must { MustStays routes.now dump.now chain p.now }
{
    let _hops = routes.list();
}
