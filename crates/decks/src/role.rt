// Roles of tables and steps.
ghost use Rattle.std.specs.Prelude.{◌≡◌};
ghost use Rattle.decks.specs.Order.{role_number};

// The roles, with their numbers.
#[derive(Clone, Copy)]
pub(crate) enum Role {
    Plant = 0,
    Spec = 1,
}

impl Role {
    pub(crate) fn number(self) -> u8
        ensures { result ≡ role_number self }
    {
        self as u8
    }
}
