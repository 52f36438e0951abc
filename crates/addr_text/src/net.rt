/// A net of addresses.
#[derive(Clone, Copy, Debug, PartialEq, Eq)]
pub enum Net {
    /// The addresses whose first `len` bits are those of `value`, whose other bits are 0.
    Prefix { value: u128, len: u32 },
    /// An address with a mask whose set bits are not its highest ones.
    Masked,
}
