// FNV-1a, 64 bits: of bytes, of samples, of RAM, of all registers, of the reads beside them.
ghost use Rattle.std.specs.Prelude.{◌≡◌, ◌*◌, ◌%◌, ◌^◌};
ghost use Rattle.numbers.specs.Signed.{low_z, high_z};
ghost use Rattle.dsp.specs.Sheet.{pair_bytes};
ghost use Rattle.report.specs.Digest.{fnv, fnv_all, used};

use dsp::{Dsp, Sample};

pub const EMPTY: u64 = 0xCBF29CE484222325;

const PRIME: u64 = 0x100000001B3;

fn times_prime(x: u64) -> u64
    ensures { result ≡ x * 0x100000001B3 % 2 ^ 64 }
{
    x.wrapping_mul(PRIME)
}

pub fn with_byte(sum: u64, byte: u8) -> u64
    ensures { result ≡ fnv sum byte }
{
    times_prime(sum ^ (byte as u64))
}

fn with_i16(sum: u64, x: i16) -> u64
    ensures { result ≡ fnv (fnv sum (low_z x)) (high_z x) }
{
    with_byte(with_byte(sum, numbers::low(x)), numbers::high(x))
}

// Left, right, 16 bits, low byte first.
#[tactic(auto, unfolding(dsp::specs::Sheet::pair_bytes))]
pub fn with_sample(sum: u64, sample: Sample) -> u64
    ensures { result ≡ fnv_all sum (pair_bytes sample.left sample.right) }
{
    with_i16(with_i16(sum, sample.left), sample.right)
}

pub fn with_registers(sum: u64, dsp: Dsp) -> u64
    ensures { result ≡ fnv_all sum dsp.registers }
{
    let mut made = sum;
    for register in 0..128 {
        made = with_byte(made, dsp.read_reg(register));
    }
    made
}

// EDL and PMON as used, which may differ from their registers.
pub fn with_reads(sum: u64, dsp: Dsp) -> u64
    ensures { result ≡ fnv_all sum (used dsp) }
{
    with_byte(with_byte(sum, dsp.edl()), dsp.pmon())
}

pub fn with_bytes(sum: u64, bytes: &[u8]) -> u64
    ensures { result ≡ fnv_all sum bytes.now }
{
    bytes.iter().fold(sum, |made, byte| with_byte(made, *byte))
}
