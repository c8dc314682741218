// The bytes that a text may hold: the line feed, the space and ink.
ghost use Rattle.std.specs.Prelude.{◌≡◌};
ghost use Rattle.words.specs.Alphabet.{first_bad, allowed, FirstBad};

// Whether a byte may stand in a text.
fn is_allowed(b: u8) -> bool
    ensures { result ≡ allowed b }
{
    matches!(b as char, '\n' | ' '..='~')
}

// The offset of the first byte that may not stand in a text.
pub fn bad_byte(text: &[u8]) -> Option<usize>
    ensures answer { result ≡ first_bad text.now }
    ensures first { FirstBad text.now result }
{
    text.iter().position(|b| !is_allowed(*b))
}
