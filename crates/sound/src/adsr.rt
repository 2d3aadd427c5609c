// The envelope: its tick periods, and a level after a step.
ghost use Rattle.std.specs.Prelude.{◌≡◌, ◌+◌};
ghost use Rattle.numbers.specs.Unsigned.{least};
ghost use Rattle.sound.specs.Clock.{periods};
ghost use Rattle.sound.specs.Envelope.{lowered, gained};

// Ticks between two steps for each rate index. Index 0 never fires.
const ENVELOPE_RATE_TABLE: [u16; 32] = [
    0, 2048, 1536, 1280, 1024, 768, 640, 512, 384, 320, 256, 192, 160, 128, 96, 80, 64, 48, 40, 32,
    24, 20, 16, 12, 10, 8, 6, 5, 4, 3, 2, 1,
];

// The whole table, for a caller to keep in a local and lend.
pub fn rate_table() -> [u16; 32]
    ensures { result ≡ periods }
{
    ENVELOPE_RATE_TABLE
}

// An exponential step, in proportion to the level.
pub fn lowered(level: u16) -> u16
    ensures { result ≡ lowered level }
{
    numbers::saturating_sub(level, level / 256 + 1)
}

// A level raised, cap $7FF. It is capped before the sum too, so that no sum is too large.
fn raised(level: u16, by: u8) -> u16
    ensures { result ≡ least (level + by) 0x7FF }
{
    numbers::min(numbers::min(level, 0x7FF) + by as u16, 0x7FF)
}

// A level after a step of a GAIN ramp, by bits 6-5.
pub fn gained(mode: u8, level: u16) -> u16
    ensures { result ≡ gained mode level }
{
    match mode {
        0 => numbers::saturating_sub(level, 32),
        1 => lowered(level),
        2 => raised(level, 32),
        _ => if level < 0x600 {
            raised(level, 32)
        } else {
            raised(level, 8)
        },
    }
}
