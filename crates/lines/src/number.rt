// Decimal words: which words are numbers of 64 bits, and which number each of them is.
ghost use Rattle.std.specs.Prelude.{◌≡◌, [], ◌∷◌};
ghost use Rattle.lines.specs.Number.{number_from, number_of};

// The number v with one more digit behind it.
fn followed(v: u64, x: u8) -> Option<u64>
    ensures { result ≡ number_from v (x ∷ []) }
{
    if !x.is_ascii_digit() {
        return None;
    }
    let tens = v.checked_mul(10)?;
    tens.checked_add(u64::from(x - b'0'))
}

pub fn number_of(word: &[u8]) -> Option<u64>
    ensures { result ≡ number_of word.now }
{
    if word.is_empty() {
        return None;
    }
    let mut v = 0;
    for &x in word {
        v = followed(v, x)?;
    }
    Some(v)
}
