// Listings of decks. Each deck stands as a line with its name, a line with its count of bytes in decimal, its bytes, and a line
// feed that is not one of them.
ghost use Rattle.std.specs.Prelude.{IfSome, MatchOption};
ghost use Rattle.cases.specs.Listings.{Entry, Line, NoFeed, Writes};

use std::str;

// A deck with its name.
#[derive(Clone, Copy)]
pub struct Case<'a> {
    pub name: &'a [u8],
    pub deck: &'a [u8],
}

// The first deck of a listing, and the rest of the listing.
pub fn split_case(listing: &[u8]) -> Option<(Case<'_>, &[u8])>
    ensures { IfSome result (λ x. Entry listing.now x.0.name.now x.0.deck.now x.1.now) }
{
    let (name, rest) = split_line(listing)?;
    let (digits, rest) = split_line(rest)?;
    let count = number(digits)?;
    let (deck, rest) = rest.split_at_checked(count)?;
    let (end, rest) = rest.split_first()?;
    if *end != b'\n' {
        return None;
    }
    Some((Case { name, deck }, rest))
}

// The first line of a text, and what stands after its line feed.
fn split_line(text: &[u8]) -> Option<(&[u8], &[u8])>
    ensures { MatchOption result (NoFeed text.now) (λ x. Line text.now x.0.now x.1.now) }
{
    let place = text.iter().position(|byte| *byte == b'\n')?;
    Some((&text[..place], &text[place + 1..]))
}

// A number in decimal.
fn number(digits: &[u8]) -> Option<usize>
    ensures { IfSome result (λ n. Writes digits.now n) }
{
    str::from_utf8(digits).ok()?.parse::<usize>().ok()
}
