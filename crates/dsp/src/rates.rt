// The tick periods of document 01's table, lent as one value: a constant that is indexed in place is built on the stack at each use.
ghost use Rattle.std.specs.Prelude.{◌≡◌, ◌<◌};
ghost use Rattle.sound.specs.Clock.{periods, period_of};

use sound::rate_table;

#[derive(Drop)]
pub struct Rates {
    pub table: [u16; 32],
    ghost whole: { table ≡ periods },
}

impl Rates {
    pub(crate) fn new() -> Self {
        Rates {
            table: rate_table(),
        }
    }

    // The period of an entry of the table; entry 0 never fires.
    #[tactic(auto, unfolding(sound::specs::Clock::period_of))]
    pub(crate) fn period_of(&self, entry: u8) -> u16
        requires { entry < 32 }
        ensures { result ≡ period_of entry }
    {
        self.table[entry as usize]
    }
}
