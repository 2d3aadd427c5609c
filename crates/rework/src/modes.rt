// The two fields that decide what a rework may do and must work, as the log's writes leave them.
ghost use Rattle.std.specs.Prelude.{◌≡◌};
ghost use Rattle.rework.specs.Members.{Fields, modes_after};

use std::marker::Model;

#[derive(Clone, Copy)]
pub struct Modes {
    pub flg: u8,
    pub pmon: u8,
}

// Contracts read it as the record of the definitions.
impl Model for Modes {
    ghost Value = { Fields };

    ghost view = { λ m. record { flg = m.flg; pmon = m.pmon } };

    ghost inverse = { λ f. record { flg = f.flg; pmon = f.pmon } };
}

impl Modes {
    pub(crate) fn after(mut self, register: u8, value: u8) -> Self
        ensures { result ≡ modes_after register value self }
    {
        match register {
            0x6C => self.flg = value,
            0x2D => self.pmon = value / 2 * 2,
            _ => {}
        }
        self
    }
}
