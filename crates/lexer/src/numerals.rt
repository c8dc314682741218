// Numbers as they are written in a field.
ghost use Rattle.std.specs.Prelude.{◌≡◌, ◌≤◌, length};
ghost use Rattle.lexer.specs.Numerals.{numeral, reads, most_digits, NumeralsStand};

// The most digits that a number has.
const MOST_DIGITS: usize = 5;

// The number that digits write, or nothing where a byte is no digit. By a `for`, since a fold's closure would hide that the loop ends early.
fn digits(bytes: &[u8]) -> Option<u32>
    requires { length bytes.now ≤ most_digits }
    ensures { result ≡ reads 0 bytes.now }
{
    let mut value = 0;
    for b in bytes {
        match *b as char {
            '0'..='9' => value = value * 10 + u32::from(*b - b'0'),
            _ => return None,
        }
    }
    Some(value)
}

// The number that these bytes write: 1 to 5 digits without a leading zero, at most 65,535.
#[tactic(auto, unfolding(crate::specs::Numerals::numeral))]
pub fn number(bytes: &[u8]) -> Option<u16>
    ensures { result ≡ numeral bytes.now }
{
    match bytes {
        [] | [b'0', _, ..] => None,
        _ if bytes.len() > MOST_DIGITS => None,
        _ => u16::try_from(digits(bytes)?).ok(),
    }
}

// A field writes a number exactly where it is what is printed of one up to 65,535.
pub fn numerals_stand() -> u8
    ensures { NumeralsStand }
{
    0
}
