// Noise: the 15-bit shift register that all voices share, and its clock.
ghost use Rattle.std.specs.Prelude.{◌≡◌, ◌≤◌};
ghost use Rattle.dsp.specs.Noise.{noise_tick, noise_sample};
ghost use Rattle.dsp.specs.Inside.{as_noise};

use crate::adsr::tick_due;
use crate::rates::Rates;

// The Rust's noise_lfsr and noise_tick_counter.
#[derive(Clone, Copy, PartialEq, Eq)]
pub struct Noise {
    pub lfsr: u16,
    pub counter: u16,
}

impl Noise {
    // The Rust's advance_noise: FLG bits 4-0 are the rate.
    #[tactic(auto, unfolding(crate::specs::Noise::noise_tick))]
    pub(crate) fn advance(mut self, rates: &Rates, flg: u8) -> Self
        requires { (self.counter ≤ 2047) }
        ensures { as_noise result ≡ noise_tick flg (as_noise self) }
    {
        let t = tick_due(self.counter, rates.period_of(flg % 32));
        self.counter = t.counter;
        if t.due {
            self.lfsr = sound::shifted(self.lfsr);
            self
        } else {
            self
        }
    }

    // The register doubled, to 16 bits.
    pub(crate) fn sample(self) -> i16
        requires { self.lfsr ≤ 0x7FFF }
        ensures { result ≡ noise_sample (as_noise self) }
    {
        numbers::cut16(2 * (self.lfsr as i32)) as i16
    }
}
