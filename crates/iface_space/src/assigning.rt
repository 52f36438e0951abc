ghost use Rattle.std.specs.Prelude.{◌≡◌, IfOk};
ghost use Rattle.iface_space.specs.Assigned as spec;
ghost use Rattle.iface_space.specs.Assigned.{MayStays, MustStays};

use crate::zones::Zones;
use fw_rule::{Dump, Lit, LiteralMap};
use match_expr::Expr;
use primitives::{Packet, Prim_};
use std::alloc::{AllocError, Global};

impl<const W: u32> LiteralMap<Prim_<W>> for Zones<W> {
    ghost use Rattle.iface_space.specs.Assigned.{assigned_literal};

    ghost image = { λ zones lit. assigned_literal zones lit };

    fn literal(&self, alloc: Global, lit: &Lit<Prim_<W>>) -> Result<Lit<Prim_<W>>, AllocError> {
        match lit {
            Lit::Known {
                neg,
                expr: Expr::Prim(Prim_::InName(pattern)),
            } => Ok(Lit::Known {
                neg: *neg,
                expr: Expr::Prim(Prim_::Src(self.sources(alloc, pattern)?)),
            }),
            _ => lit.copy(alloc),
        }
    }
}

/// The dump with a test of the source in place of each known literal that tests the name of the input interface: of the
/// addresses of the zones whose name its pattern matches. Negations, numbers and all else stay. The one refusal is want
/// of memory.
pub fn assigned<const W: u32>(
    alloc: Global,
    dump: &Dump<Prim_<W>>,
    zones: &Zones<W>,
) -> Result<Dump<Prim_<W>>, AllocError>
    ensures { IfOk result (λ d. d ≡ spec.assigned zones.now dump.now) }
{
    dump.mapped(alloc, zones)
}

/// Of a valid packet whose input interface has a zone that holds its source, the assigned dump says what the dump itself
/// says: whether it may be accepted, and whether it must be.
pub fn assigned_is_exact<const W: u32>(
    dump: &Dump<Prim_<W>>,
    zones: &Zones<W>,
    chain: u32,
    p: &Packet,
)
    ensures may { MayStays zones.now dump.now chain p.now }
    ensures must { MustStays zones.now dump.now chain p.now }
{
    let _zones = zones.list();
}
