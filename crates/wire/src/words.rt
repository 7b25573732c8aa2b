ghost use Rattle.std.specs.Prelude.{◌≡◌, ◌≢◌, ◌∷◌, ◌++◌, All, IfSome, IfNone};

use memchr::memchr;

/// The bytes before the first byte of this value, and those after it.
pub fn split_at_byte(bytes: &[u8], byte: u8) -> Option<(&[u8], &[u8])>
    ensures found { IfSome result
        (λ parts. (bytes.now ≡ parts.0.now ++ byte ∷ parts.1.now) × All (λ other. other ≢ byte) parts.0.now) }
    ensures none { IfNone result (All (λ other. other ≢ byte) bytes.now) }
{
    match memchr(byte, bytes) {
        Some(at) => Some((&bytes[..at], &bytes[at + 1..])),
        None => None,
    }
}
