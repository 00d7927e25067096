// Lines: the digits at the front of a text, up to a line feed.
ghost use Rattle.std.specs.Prelude.{◌≡◌, ◌≤◌, length};
ghost use Rattle.frames.specs.Lines.{first_line, parts, run};

use crate::digits::is_digit;
use crate::faults::LineFault;

const LEAST_DIGITS: usize = 2;

const MOST_DIGITS: usize = 64;

pub const LINE_FEED: u8 = b'\n';

// The digits of the deck's first line, and the rest of the deck after its line feed.
pub fn line(deck: &[u8], number: u16) -> Result<(&[u8], &[u8]), LineFault>
    ensures { parts result ≡ first_line deck.now number }
{
    let count = digit_count(deck);
    if count < LEAST_DIGITS || count > MOST_DIGITS || count % 2 != 0 {
        return Err(LineFault::Malformed(number));
    }
    let (digits, after) = deck.split_at(count);
    match after.split_first() {
        Some((first, rest)) if *first == LINE_FEED => Ok((digits, rest)),
        _ => Err(LineFault::Malformed(number)),
    }
}

// How many digits a text begins with.
fn digit_count(text: &[u8]) -> usize
    ensures value { result ≡ run text.now }
    ensures within { result ≤ length text.now }
{
    text.iter().take_while(|b| is_digit(**b)).count()
}
