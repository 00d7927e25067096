// Reading a text frame by frame.
ghost use Rattle.std.specs.Prelude.{◌≡◌, true, false, MatchResult};
ghost use Rattle.decks.specs.Order.{Placed, complete};
ghost use Rattle.decks.specs.Reader.{Took, next, state};
ghost use Rattle.decks.specs.Said.{says};
ghost use Rattle.frames.specs.declared.faults.FrameFault.TheVariants.{Ended};

use super::Reader;
use crate::deck::Deck;
use crate::stage::Stage;
use crate::unread::Unread;
use frames::{Frame, FrameFault};
use std::alloc::Global;

impl Reader {
    // Takes the frame that a text begins with, and answers the rest of the text.
    pub(crate) fn take<'a>(
        &mut self,
        heap: Global,
        text: &'a [u8],
        number: u16,
    ) -> Result<&'a [u8], Unread>
        requires { Placed (state self.old) }
        ensures { Took (next (state self.old) text.now number) (state self.new) result }
    {
        let (frame, rest) = Frame::read(text, number)?;
        self.accept(heap, frame)?;
        Ok(rest)
    }

    // What the frames yield, or the fault of a deck that ends before the specification's table.
    pub(crate) fn finish(self, number: u16) -> Result<Deck, FrameFault>
        ensures { MatchResult result (λ d. (says d ≡ says self.deck) × (complete self.stage ≡ true)) (λ why. (why ≡ Ended number) × (complete self.stage ≡ false)) }
    {
        let Reader { stage, deck } = self;
        match stage {
            Stage::SpecSteps | Stage::Plays => Ok(deck),
            _ => Err(FrameFault::Ended(number)),
        }
    }
}
