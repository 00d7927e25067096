// Digits, and the numbers that they write.
ghost use Rattle.std.specs.Prelude.{◌≡◌, ◌^◌, ◌<◌, IfOk};
ghost use Rattle.std.specs.Result.{result_ok};
ghost use Rattle.frames.specs.Digits.{byte_at, digit_of, digital, mask_at, nibble_at, pair_at};

use plants::Mask;

// A character that is no digit.
#[derive(Clone, Copy, PartialEq, Eq, Debug)]
pub struct NotDigit;

// The value of a digit.
pub fn digit(c: char) -> Result<u8, NotDigit>
    ensures value { result_ok result ≡ digit_of c }
    ensures bound { IfOk result (λ v. v < 16) }
{
    match c {
        '0'..='9' => Ok((c as u32 - '0' as u32) as u8),
        'A'..='F' => Ok((c as u32 - 'A' as u32) as u8 + 10),
        _ => Err(NotDigit),
    }
}

pub fn is_digit(b: u8) -> bool
    ensures { result ≡ digital b }
{
    digit(b as char).is_ok()
}

// The value of the digit at a place; 0 where no digit stands.
fn nibble(digits: &[u8], place: usize) -> u8
    ensures value { result ≡ nibble_at digits.now place }
    ensures bound { result < 16 }
{
    digits
        .get(place)
        .map_or(0, |b| digit(*b as char).unwrap_or(0))
}

// The byte that the two digits from a place on write.
#[tactic(auto, unfolding(crate::specs::Digits::pair_at))]
fn pair(digits: &[u8], place: usize) -> u8
    requires { place < 2 ^ 32 }
    ensures { result ≡ pair_at digits.now place }
{
    16 * nibble(digits, place) + nibble(digits, place + 1)
}

// The byte at a place, two digits to a byte.
pub fn byte(digits: &[u8], place: u16) -> u8
    ensures { result ≡ byte_at digits.now place }
{
    pair(digits, 2 * place as usize)
}

// The mask in the four bytes from a place on, the highest first.
pub fn mask(digits: &[u8], place: u8) -> Mask
    ensures { result ≡ mask_at digits.now place }
{
    let first = place as u16;
    Mask::from_be_bytes([
        byte(digits, first),
        byte(digits, first + 1),
        byte(digits, first + 2),
        byte(digits, first + 3),
    ])
}
