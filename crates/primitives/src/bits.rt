ghost use Rattle.std.specs.Prelude.{◌≡◌};
ghost use Rattle.primitives.specs.Holds.{has_bit};

/// Whether the bit of that place is set.
pub fn has_bit(bits: u8, place: u8) -> bool
    ensures { result ≡ has_bit bits place }
{
    place < 8 && (bits >> place) & 1 == 1
}
