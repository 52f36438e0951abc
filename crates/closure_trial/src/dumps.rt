ghost use Rattle.std.specs.Prelude.{◌==◌};

use match_expr::Primitive;
use std::alloc::{AllocError, Global};

/// Packets are the numbers below this.
pub(crate) const PACKETS: u8 = 3;

/// Holds of the packet of this number.
#[derive(Debug, Drop)]
pub(crate) struct Is(pub u8);

impl Primitive for Is {
    type Packet = u8;

    ghost meaning = { λ x p. x.0 == p };

    fn holds(&self, p: &u8) -> bool {
        self.0 == *p
    }

    fn copy(&self, alloc: Global) -> Result<Is, AllocError> {
        let _ = alloc;
        Ok(Is(self.0))
    }
}
