// Numbers out of a record, 16 bits low byte first, and what checking one gives.
ghost use Rattle.std.specs.Prelude.{◌≡◌, ◌+◌, ◌<◌, length};
ghost use Rattle.dsp.specs.Noise.{Noise};
ghost use Rattle.replay.specs.Noise.{carry_of};
ghost use Rattle.replay.specs.Records.{u8_at, u16_at, i8_at, i16_at, ◌=ℤ?◌};

use dsp::Dsp;

// What a record hands on to the next one of its file: the noise, which alone has a state.
#[derive(Clone, Copy)]
pub struct Carry {
    pub lfsr: u16,
    pub counter: u16,
}

#[derive(Clone, Copy)]
pub struct Checked {
    pub equal: bool,
    pub carry: Carry,
}

impl Carry {
    // The noise of a record.
    pub fn of(d: Dsp) -> Self
        ensures { ◌≡◌ {A = Noise} (record { lfsr = result.lfsr; counter = result.counter }) (carry_of d) }
    {
        Carry {
            lfsr: d.noise_lfsr,
            counter: d.noise_tick_counter,
        }
    }
}

pub fn byte_at(bytes: &[u8], i: usize) -> u8
    requires { i < length bytes.now }
    ensures { result ≡ u8_at bytes.now i }
{
    bytes[i]
}

pub fn u16_at(bytes: &[u8], i: usize) -> u16
    requires { i + 1 < length bytes.now }
    ensures { result ≡ u16_at bytes.now i }
{
    u16::from_le_bytes([bytes[i], bytes[i + 1]])
}

pub fn i8_at(bytes: &[u8], i: usize) -> i8
    requires { i < length bytes.now }
    ensures { result ≡ i8_at bytes.now i }
{
    bytes[i].cast_signed()
}

pub fn i16_at(bytes: &[u8], i: usize) -> i16
    requires { i + 1 < length bytes.now }
    ensures { result ≡ i16_at bytes.now i }
{
    i16::from_le_bytes([bytes[i], bytes[i + 1]])
}

// Whether x stands at i: what a leaf gave, held against what the record says.
pub fn is_i16_at(x: i16, bytes: &[u8], i: usize) -> bool
    requires { i + 1 < length bytes.now }
    ensures { result ≡ (x =ℤ? i16_at bytes.now i) }
{
    x == i16_at(bytes, i)
}
