// A record of the noise: FLG, of which bits 4-0 are the rate | sample after a tick. The records are one run.
ghost use Rattle.std.specs.Prelude.{◌≡◌, length};
ghost use Rattle.replay.specs.Noise.{Check, noise_check};

use crate::machine::{empty_ram, sound};
use crate::records::{Carry, Checked, byte_at, is_i16_at};
use dsp::Dsp;

// "NON replaces the sample after the voice step": voice 0 shows the noise's sample.
#[tactic(auto, unfolding(crate::specs::Noise::noise_check, crate::specs::Noise::noisy_answer), using(refusal::proofs::Numbers::positive))]
pub fn checked(bytes: &[u8], carry: Carry) -> Checked
    requires { length bytes.now ≡ 3 }
    ensures { ◌≡◌ {A = Check} (record { equal = result.equal; carry = record { lfsr = result.carry.lfsr; counter = result.carry.counter } }) (noise_check bytes.now (record { lfsr = carry.lfsr; counter = carry.counter })) }
{
    let mut d = Dsp::new();
    d.flg = byte_at(bytes, 0);
    d.non = 0xFF;
    d.noise_lfsr = carry.lfsr;
    d.noise_tick_counter = carry.counter;
    let mut ram = empty_ram();
    match d.step(&mut ram) {
        Ok(e) => Checked {
            equal: is_i16_at(sound(e).current_sample, bytes, 1),
            carry: Carry::of(e),
        },
        Err(refused) => Checked {
            equal: false,
            carry: Carry::of(refused.given),
        },
    }
}
