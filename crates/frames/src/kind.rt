// The kinds of frame.
ghost use Rattle.std.specs.Prelude.{◌≡◌, ◌-◌, slice_index};
ghost use Rattle.frames.specs.Frames.{Decodes, kind_number, line_lengths};

// The kinds, with their numbers. A `Frame` has the same cases, with what each holds.
#[derive(Clone, Copy, PartialEq, Eq, Debug)]
pub enum Kind {
    Header = 1,
    Site = 2,
    Table = 3,
    Step = 4,
    Counter = 5,
    Play = 6,
}

// A number that no kind has.
#[derive(Clone, Copy, PartialEq, Eq, Debug)]
pub struct NotKind;

// How many digits a line has, by its kind.
pub const LINE_LENGTHS: [usize; 6] = [14, 20, 16, 10, 8, 4];

impl TryFrom<u8> for Kind {
    type Error = NotKind;

    ghost try_from_gives = { Decodes };

    fn try_from(number: u8) -> Result<Kind, NotKind> {
        match number {
            1 => Ok(Kind::Header),
            2 => Ok(Kind::Site),
            3 => Ok(Kind::Table),
            4 => Ok(Kind::Step),
            5 => Ok(Kind::Counter),
            6 => Ok(Kind::Play),
            _ => Err(NotKind),
        }
    }
}

impl Kind {
    // How many digits a line of this kind has.
    pub fn line_length(self) -> usize
        ensures { result ≡ slice_index line_lengths (kind_number self - 1) }
    {
        LINE_LENGTHS[self as usize - 1]
    }
}
