// Signed 32-bit coefficients in four bytes, two's complement, low byte first.
ghost use Rattle.std.specs.Prelude.{◌≡◌, ◌+◌, ◌≤◌, length};
ghost use Rattle.wiring.specs.Coefficient.{word, signed};

// The number in the four bytes from at on.
pub fn decode(b: &[u8], at: usize) -> i32
    requires { at + 4 ≤ length b.now }
    ensures { result ≡ signed (word b.now at) }
{
    i32::from_le_bytes([b[at], b[at + 1], b[at + 2], b[at + 3]])
}
