// The FNV-1a digest of 64 bits, for buffers that are too long to print.
ghost use Rattle.std.specs.Prelude.{◌≡◌};
ghost use Rattle.lines.specs.Digest.{mixed};
ghost use Rattle.lines.specs.Digest.{digest as Digest·digest};

// The digest of nothing, and the prime, 2^40 + 435, by which each byte multiplies.
const BASIS: u64 = 14695981039346656037;

const PRIME: u64 = 1099511628211;

// A byte mixed into the lowest one.
fn mix(h: u64, x: u8) -> u64
    ensures { result ≡ mixed h x }
{
    let low = h % 256;
    h - low + (low ^ u64::from(x))
}

pub(crate) fn digest(s: &[u8]) -> u64
    ensures { result ≡ Digest·digest s.now }
{
    let mut h = BASIS;
    for &x in s {
        h = mix(h, x).wrapping_mul(PRIME);
    }
    h
}
