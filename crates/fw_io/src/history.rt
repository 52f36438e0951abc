ghost use Rattle.std.specs.Prelude.{◌≡◌, ◌++◌, [], ℕ, List};
ghost use Rattle.std.specs.Borrow.{ftrue};

use std::marker::Model;

/// The bytes that went by so far. Contracts read them as `bytes`; the program keeps none of them.
#[derive(Drop)]
pub struct History {
    pub ghost bytes: { List ℕ },
}

impl Model for History {
    ghost also_owns = { λ _. ftrue };
}

impl History {
    /// No bytes so far.
    pub fn new() -> History
        ensures { result.bytes ≡ [] }
    {
        History {}
    }

    /// These bytes went by next.
    pub fn then(&self, piece: &[u8]) -> History
        ensures { result.bytes ≡ self.now.bytes ++ piece.now }
    {
        History {}
    }
}
