// The chip's formulas and tables: total functions of numbers, with no record and no RAM.
#![tactic(auto)]

ghost use Rattle.std.specs.Prelude.{◌≡◌};
ghost use Rattle.numbers.specs.Listed.{moved_on};
// in a contract `◌>>◌` is the logic's own
ghost use Rattle.numbers.specs.Signed.{◌>>◌ as ◌≫◌};
ghost use Rattle.sound.specs.Sound.{even, joined, volumed, summed, mastered, fed_back, fir_tap, fir_sum, fir_of, to16};

mod adsr;
mod brr;
mod gauss;
mod noise;

pub use adsr::{gained, lowered, rate_table};
pub use brr::decode_brr_nibble;
pub use gauss::gauss_table;
pub use noise::shifted;

// Bit 0 cleared.
pub fn even(x: i16) -> i16
    ensures { result ≡ even x }
{
    2 * (x >> 1)
}

// Two bytes, low byte first, as a 16-bit sample.
pub fn joined(lo: u8, hi: u8) -> i16
    ensures { result ≡ joined lo hi }
{
    i16::from_le_bytes([lo, hi])
}

// A product with a signed volume.
fn volumed(x: i16, volume: i8) -> i32
    ensures { result ≡ volumed x volume }
{
    ((x as i32) * (volume as i32)) >> 7
}

// The same, cut to 16 bits: it wraps, as the hardware's does.
fn volumed16(x: i16, volume: i8) -> i16
    ensures { result ≡ to16 (volumed x volume) }
{
    numbers::cut16(volumed(x, volume)) as i16
}

// A voice's product added to a 16-bit sum, which saturates after each voice.
pub fn summed(sum: i16, x: i16, volume: i8) -> i16
    ensures { result ≡ summed sum x volume }
{
    numbers::clamp16((sum as i32) + volumed(x, volume)) as i16
}

// One side of the stereo sample.
pub fn mastered(dry: i16, master: i8, echo: i16, volume: i8) -> i16
    ensures { result ≡ mastered dry master echo volume }
{
    let a = volumed16(dry, master);
    let b = volumed16(echo, volume);
    numbers::clamp16((a as i32) + (b as i32)) as i16
}

// What is written back into the echo buffer.
pub fn fed_back(input: i16, echo: i16, feedback: i8) -> i16
    ensures { result ≡ fed_back input echo feedback }
{
    let b = volumed16(echo, feedback);
    even(numbers::clamp16((input as i32) + (b as i32)) as i16)
}

fn fir_tap(x: i16, tap: i8) -> i32
    ensures { result ≡ fir_tap x tap }
{
    ((x as i32) * (tap as i32)) >> 6
}

// Taps 0 to 6, tap 0 with the oldest.
fn fir_sum(h: [i16; 8], taps: [i8; 8]) -> i32
    ensures { result ≡ fir_sum h taps 7 }
{
    let mut sum = 0;
    for i in 0..7 {
        sum += fir_tap(h[i], taps[i]);
    }
    sum
}

// The echo's filter: the sum of seven wraps, the eighth is added and clamped.
pub fn fir(h: [i16; 8], taps: [i8; 8]) -> i16
    ensures { result ≡ fir_of h taps }
{
    let seven = numbers::cut16(fir_sum(h, taps));
    let eighth = numbers::cut16(fir_tap(h[7], taps[7]));
    even(numbers::clamp16(seven + eighth) as i16)
}

// A history, oldest first, moved on by a sample, which is kept halved.
pub fn moved_on(h: [i16; 8], x: i16) -> [i16; 8]
    ensures { result ≡ moved_on h (x ≫ 1) }
{
    let y = x >> 1;
    [h[1], h[2], h[3], h[4], h[5], h[6], h[7], y]
}
