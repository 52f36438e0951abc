ghost use Rattle.std.specs.Prelude.{◌≡◌};
ghost use Rattle.primitives.specs.Bytes.{is_plain_byte};

/// Whether a name may hold the byte as it is, shown or printed: an ASCII letter, a digit, or one of `._+:@/-`.
pub fn is_plain_byte(byte: u8) -> bool
    ensures { result ≡ is_plain_byte byte }
{
    matches!(byte, b'0'..=b'9' | b'A'..=b'Z' | b'a'..=b'z' | b'.' | b'_' | b'+' | b':' | b'@' | b'/' | b'-')
}
