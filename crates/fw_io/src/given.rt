ghost use Rattle.std.specs.Prelude.{◌≡◌, ◌≤◌, ◌++◌, ◌==◌, [], cond, false, length, take};

use crate::history::History;

/// What a source gave so far, and whether the last read that asked for bytes and didn't fail gave none.
#[derive(Drop)]
pub struct Given {
    pub bytes: History,
    pub ended: bool,
}

impl Given {
    /// Nothing was read so far.
    pub fn new() -> Given
        ensures bytes { result.bytes.bytes ≡ [] }
        ensures ended { result.ended ≡ false }
    {
        Given {
            bytes: History::new(),
            ended: false,
        }
    }

    /// A read put so many bytes at the front of the buffer.
    pub fn add(&mut self, buf: &[u8], count: usize)
        requires { count ≤ length buf.now }
        ensures bytes { self.new.bytes.bytes ≡ self.old.bytes.bytes ++ take count buf.now }
        ensures ended { self.new.ended ≡ cond (length buf.now == 0) self.old.ended (count == 0) }
    {
        self.bytes = self.bytes.then(&buf[..count]);
        if !buf.is_empty() {
            self.ended = count == 0;
        }
    }
}
