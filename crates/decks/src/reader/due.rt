// What a frame that is due does: its values are checked, and what it says is added.
ghost use Rattle.std.specs.Prelude.{◌≡◌, ◌≤◌, true, is_ok};
ghost use Rattle.plants.specs.Tables.{means, with_step};
ghost use Rattle.control.specs.Ranges.{most_sites};
ghost use Rattle.frames.specs.Digits.{byte_at};
ghost use Rattle.frames.specs.Frames.{counter_of, header_of, play_of, site_of, step_of, table_of};
ghost use Rattle.decks.specs.Order.{due_site, moved, role_number, step_role, table_role, value_fault};
ghost use Rattle.decks.specs.Reader.{Answers, refusal, state, step_fault, table_fault};

use super::Reader;
use crate::role::Role;
use crate::stage::Stage;
use crate::unread::Unread;
use control::SITES;
use frames::{FrameFault, Payload};
use plants::{Counter, EVENTS, MOST_STATES, Misfit, Table, is_below};
use std::alloc::Global;

impl Reader {
    pub(super) fn header(&mut self, payload: Payload<'_>) -> Result<(), FrameFault>
        ensures value { refusal result ≡ value_fault (state self.old) (header_of payload.entry.digits.now) payload.entry.line }
        ensures after { is_ok result ≡ true → state self.new ≡ moved (state self.old) (header_of payload.entry.digits.now) }
    {
        let events = payload.byte(0);
        let sites = payload.byte(1);
        if events < 1 || events > EVENTS || sites < 1 || sites > SITES {
            return Err(payload.out_of_range());
        }
        self.deck.events = events;
        self.deck.sites = sites;
        self.deck.modes = payload.mask(2);
        self.stage = Stage::Site(1);
        Ok(())
    }

    pub(super) fn site(&mut self, due: u8, payload: Payload<'_>) -> Result<(), FrameFault>
        requires due { due_site self.old.stage ≡ due }
        requires low { 1 ≤ due }
        requires high { due ≤ most_sites }
        ensures value { refusal result ≡ value_fault (state self.old) (site_of payload.entry.digits.now) payload.entry.line }
        ensures after { is_ok result ≡ true → state self.new ≡ moved (state self.old) (site_of payload.entry.digits.now) }
    {
        if payload.byte(0) != due {
            return Err(payload.out_of_range());
        }
        self.deck.seen[due as usize - 1] = payload.mask(1);
        self.deck.controlled[due as usize - 1] = payload.mask(5);
        self.stage = if due < self.deck.sites {
            Stage::Site(due + 1)
        } else {
            Stage::PlantTable
        };
        Ok(())
    }

    pub(super) fn table(
        &mut self,
        heap: Global,
        role: Role,
        payload: Payload<'_>,
    ) -> Result<(), Unread>
        requires { table_role self.old.stage ≡ role_number role }
        ensures value { Answers result (value_fault (state self.old) (table_of payload.entry.digits.now) payload.entry.line) }
        ensures after { is_ok result ≡ true → state self.new ≡ moved (state self.old) (table_of payload.entry.digits.now) }
    {
        check_table(self.deck.events, role, payload)?;
        let table = Table::empty(heap, payload.byte(1), payload.byte(2), payload.mask(3))?;
        match role {
            Role::Plant => {
                self.deck.plant.left = table;
                self.stage = Stage::PlantSteps;
            }
            Role::Spec => {
                self.deck.spec = table;
                self.stage = Stage::SpecSteps;
            }
        }
        Ok(())
    }

    pub(super) fn step(&mut self, role: Role, payload: Payload<'_>) -> Result<(), FrameFault>
        requires { step_role self.old.stage ≡ role_number role }
        ensures value { refusal result ≡ value_fault (state self.old) (step_of payload.entry.digits.now) payload.entry.line }
        ensures after { is_ok result ≡ true → state self.new ≡ moved (state self.old) (step_of payload.entry.digits.now) }
    {
        match role {
            Role::Plant => put_step(&mut self.deck.plant.left, role, payload),
            Role::Spec => put_step(&mut self.deck.spec, role, payload),
        }
    }

    pub(super) fn counter(&mut self, payload: Payload<'_>) -> Result<(), FrameFault>
        ensures value { refusal result ≡ value_fault (state self.old) (counter_of payload.entry.digits.now) payload.entry.line }
        ensures after { is_ok result ≡ true → state self.new ≡ moved (state self.old) (counter_of payload.entry.digits.now) }
    {
        let up = payload.byte(0);
        let down = payload.byte(1);
        let limit = payload.byte(2);
        let events = self.deck.events;
        if up == down || up >= events || down >= events || limit < 1 || limit >= MOST_STATES {
            return Err(payload.out_of_range());
        }
        self.deck.plant.right = Counter { up, down, limit };
        self.stage = Stage::SpecTable;
        Ok(())
    }

    pub(super) fn play(&mut self, payload: Payload<'_>) -> Result<(), Unread>
        ensures value { Answers result (value_fault (state self.old) (play_of payload.entry.digits.now) payload.entry.line) }
        ensures after { is_ok result ≡ true → state self.new ≡ moved (state self.old) (play_of payload.entry.digits.now) }
    {
        self.deck.plays.push(payload.byte(0))?;
        self.stage = Stage::Plays;
        Ok(())
    }
}

// Whether a table's values are in range, with so many events and this role due.
fn check_table(events: u8, role: Role, payload: Payload<'_>) -> Result<(), FrameFault>
    ensures { refusal result ≡ table_fault (role_number role) events payload.entry.digits.now payload.entry.line }
{
    let count = payload.byte(1);
    if payload.byte(0) != role.number()
        || count < 1
        || count > MOST_STATES
        || payload.byte(2) >= count
        || !is_below(payload.mask(3), events)
    {
        return Err(payload.out_of_range());
    }
    Ok(())
}

// Adds a frame's step to a table of this role.
fn put_step(table: &mut Table, role: Role, payload: Payload<'_>) -> Result<(), FrameFault>
    ensures value { refusal result ≡ step_fault (role_number role) (means table.old) payload.entry.digits.now payload.entry.line }
    ensures after { is_ok result ≡ true → means table.new ≡ with_step (means table.old) (byte_at payload.entry.digits.now 1) (byte_at payload.entry.digits.now 2) (byte_at payload.entry.digits.now 3) }
{
    if payload.byte(0) != role.number() {
        return Err(payload.out_of_range());
    }
    match table.put(payload.byte(1), payload.byte(2), payload.byte(3)) {
        Ok(()) => Ok(()),
        Err(Misfit::OutOfRange) => Err(payload.out_of_range()),
        Err(Misfit::SecondStep) => Err(FrameFault::SecondStep(payload.line)),
    }
}
