// Noise: a step of the 15-bit shift register.
ghost use Rattle.std.specs.Prelude.{◌≡◌};
ghost use Rattle.sound.specs.Noise.{shifted};

// Taps at bit 0 and bit 1: their xor is fed in at bit 14 and the register moves down by one.
pub fn shifted(lfsr: u16) -> u16
    ensures { result ≡ shifted lfsr }
{
    if lfsr % 2 == lfsr / 2 % 2 {
        lfsr / 2
    } else {
        0x4000 + lfsr / 2
    }
}
