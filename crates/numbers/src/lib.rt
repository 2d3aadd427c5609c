// The numbers of the chip: clamps, cuts and bytes of signed numbers, the halves
// of a u16, the bits of a byte, and sums and differences that wrap or stop at an end. And a copy of bytes.
#![tactic(auto)]

ghost use Rattle.std.specs.Prelude.{◌≡◌, ◌+◌, ◌-◌, ◌%◌, pos};
ghost use Rattle.numbers.specs.Bits.{bit, with_bit};
ghost use Rattle.numbers.specs.Bytes.{copied};
ghost use Rattle.numbers.specs.Signed.{clamp16_z, cut_z, low_z, high_z};
ghost use Rattle.numbers.specs.Unsigned.{with_low, with_high, wrapped, least};

// Saturate to the signed 16-bit range, kept as i32 for further math.
pub fn clamp16(x: i32) -> i32
    ensures { result ≡ clamp16_z x }
{
    x.clamp(-0x8000, 0x7FFF)
}

// The low 16 bits, two's complement: the Rust's `as i16 as i32`.
pub fn cut16(x: i32) -> i32
    ensures { result ≡ cut_z 0x8000 x }
{
    (x << 16) >> 16
}

// The low 4 bits, two's complement.
pub fn cut4(x: i8) -> i32
    ensures { result ≡ cut_z 8 x }
{
    ((x as i32) << 28) >> 28
}

// A byte read as a signed number: the Rust's `as i8`.
pub fn signed8(x: u8) -> i8
    ensures { result ≡ cut_z 0x80 (pos x) }
{
    x.cast_signed()
}

// The low byte of 16 bits.
pub fn low(x: i16) -> u8
    ensures { result ≡ low_z x }
{
    let [lo, _] = x.to_le_bytes();
    lo
}

// The high byte of 16 bits.
pub fn high(x: i16) -> u8
    ensures { result ≡ high_z x }
{
    let [_, hi] = x.to_le_bytes();
    hi
}

// u16_split's `*x.lo_mut() = lo`.
pub fn with_low(x: u16, lo: u8) -> u16
    ensures { result ≡ with_low x lo }
{
    x / 256 * 256 + lo as u16
}

// u16_split's `*x.hi_mut() = hi`.
pub fn with_high(x: u16, hi: u8) -> u16
    ensures { result ≡ with_high x hi }
{
    hi as u16 * 256 + x % 256
}

// Bit n of a byte, n modulo 8.
pub fn bit(x: u8, n: usize) -> bool
    ensures { result ≡ bit x (n % 8) }
{
    (x >> (n % 8)) % 2 == 1
}

// A byte with bit n as given, n modulo 8.
pub fn with_bit(x: u8, n: usize, on: bool) -> u8
    ensures { result ≡ with_bit x (n % 8) on }
{
    let mask: u8 = 1 << (n % 8);
    if on { x | mask } else { x & (255 - mask) }
}

// The sum of two 16-bit addresses, modulo 65,536.
pub fn wrapping_add16(a: u16, b: u16) -> u16
    ensures { result ≡ wrapped (a + b) }
{
    a.wrapping_add(b)
}

// The difference, not below 0.
pub fn saturating_sub(a: u16, b: u16) -> u16
    ensures { result ≡ a - b }
{
    a.saturating_sub(b)
}

pub fn min(a: u16, b: u16) -> u16
    ensures { result ≡ least a b }
{
    a.min(b)
}

// As many bytes as both have. Byte by byte: the library's own copy allows for slices that overlap, and asks C for `memmove`.
#[tactic(auto, using(crate::proofs::Parts::unwritten, crate::proofs::Parts::stored, crate::proofs::Parts::copied_all, crate::proofs::Parts::copied_full))]
pub fn copy(from: &[u8], to: &mut [u8])
    ensures { to.new ≡ copied from.now to.old }
{
    let n = from.len().min(to.len());
    for i in 0..n {
        to[i] = from[i];
    }
}
