// Document 01, "A submission file": a field's number, its bytes in little-endian order.
ghost use Rattle.std.specs.Prelude.{◌≡◌, ◌+◌, ◌≤◌, ◌<◌, length};
ghost use Rattle.rulebook.specs.File.{num};

// The number that n bytes spell; a field of no bytes is 0.
// A position and a width, as the rule book's `num` reads a file: its callers have positions, not parts.
pub fn number(s: &[u8], at: usize, n: usize) -> usize
    requires { (n ≤ 2) × (at + n ≤ length s.now) }
    ensures { (result ≡ num n s.now at) × (result < 65536) }
{
    match n {
        0 => 0,
        1 => usize::from(s[at]),
        _ => usize::from(u16::from_le_bytes([s[at], s[at + 1]])),
    }
}
