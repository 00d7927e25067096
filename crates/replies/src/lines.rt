// Writing to a lent output. Each function writes to the front of the output, and answers how many bytes it wrote.
ghost use Rattle.std.specs.Prelude.{◌≡◌, ◌+◌, ◌*◌, ◌≤◌, [], ◌∷◌, length, nat_le};
ghost use Rattle.frames.specs.Replies.{written};
ghost use Rattle.replies.specs.Lines.{Begins, digits};

use frames::{LINE_FEED, high_digit, low_digit};

// The output has no room for what is to be written, or a run has more moves than replies can show.
#[derive(Clone, Copy, PartialEq, Eq, Debug)]
pub struct NoRoom;

// Whether so many bytes are left from a place on.
pub(crate) fn has_room(out: &[u8], at: usize, bytes: usize) -> bool
    ensures { result ≡ nat_le (at + bytes) (length out.now) }
{
    bytes <= out.len() && at <= out.len() - bytes
}

pub(crate) fn put_text(out: &mut [u8], text: &[u8]) -> usize
    requires { length text.now ≤ length out.old }
    ensures { Begins out.old out.new result text.now }
{
    out[..text.len()].copy_from_slice(text);
    text.len()
}

// The two digits of a byte.
pub(crate) fn put_byte(out: &mut [u8], byte: u8) -> usize
    requires { 2 ≤ length out.old }
    ensures { Begins out.old out.new result (digits (byte ∷ [])) }
{
    put_text(out, &[high_digit(byte), low_digit(byte)])
}

// The digits of bytes.
pub(crate) fn put_bytes(out: &mut [u8], bytes: &[u8]) -> usize
    requires { 2 * length bytes.now ≤ length out.old }
    ensures { Begins out.old out.new result (digits bytes.now) }
{
    let mut count = 0;
    for byte in bytes {
        count += put_byte(&mut out[count..], *byte);
    }
    count
}

// The line feed at the end of a line.
pub(crate) fn put_feed(out: &mut [u8]) -> usize
    requires { 1 ≤ length out.old }
    ensures { Begins out.old out.new result (10 ∷ []) }
{
    put_text(out, &[LINE_FEED])
}

// A line of bytes: two digits to a byte, and a line feed.
pub(crate) fn put_line(out: &mut [u8], bytes: &[u8]) -> usize
    requires { 2 * length bytes.now + 1 ≤ length out.old }
    ensures { Begins out.old out.new result (written bytes.now) }
{
    let count = put_bytes(out, bytes);
    count + put_feed(&mut out[count..])
}
