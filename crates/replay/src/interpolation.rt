// A record of the interpolation: position, four samples, oldest first | sample.
ghost use Rattle.std.specs.Prelude.{◌≡◌, length};
ghost use Rattle.replay.specs.Interpolation.{history_of, voice_says, interpolation_equal};

use crate::machine::{empty_ram, keyed_on, playback, sound, steady, tick};
use crate::records::{i16_at, is_i16_at, u16_at};
use dsp::Voice;

fn history(bytes: &[u8]) -> [i16; 4]
    requires { length bytes.now ≡ 12 }
    ensures { result ≡ history_of bytes.now }
{
    [
        i16_at(bytes, 2),
        i16_at(bytes, 4),
        i16_at(bytes, 6),
        i16_at(bytes, 8),
    ]
}

fn says(v: Voice, bytes: &[u8]) -> bool
    requires { length bytes.now ≡ 12 }
    ensures { result ≡ voice_says v bytes.now }
{
    is_i16_at(v.current_sample, bytes, 10)
}

#[tactic(auto, unfolding(crate::specs::Interpolation::interpolation_equal), using(refusal::proofs::Numbers::positive))]
pub fn equal(bytes: &[u8]) -> bool
    requires { length bytes.now ≡ 12 }
    ensures { result ≡ interpolation_equal bytes.now }
{
    let mut ram = empty_ram();
    let b = playback(0, 0, 0, 16);
    let v = keyed_on(steady(), b, u16_at(bytes, 0), history(bytes));
    tick(v, &mut ram).is_ok_and(|d| says(sound(d), bytes))
}
