// BRR: bytes of RAM at addresses that wrap, and a block of 16 samples.
ghost use Rattle.std.specs.Prelude.{◌≡◌, ◌+◌, ◌<◌, length};
ghost use Rattle.dsp.specs.PowerOn.{new_brr};
ghost use Rattle.dsp.specs.Fit.{brr_rule, meets};
ghost use Rattle.dsp.specs.Ram.{byte_at, word_at};
ghost use Rattle.dsp.specs.Brr.{sample_of, decode_block};
ghost use Rattle.dsp.specs.Inside.{as_decoded};

// BRR playback state of one voice.
#[derive(Clone, Copy, PartialEq, Eq)]
pub struct Brr {
    pub addr: u16,
    pub nibble_idx: u8,
    pub prev1: i16,
    pub prev2: i16,
    pub block_end: bool,
    pub sample_buffer: [i16; 16],
    pub buffer_fill: u8,
}

impl Brr {
    pub(crate) fn new() -> Self
        ensures { result ≡ new_brr }
    {
        Self {
            addr: 0,
            nibble_idx: 0,
            prev1: 0,
            prev2: 0,
            block_end: false,
            sample_buffer: [0; 16],
            buffer_fill: 0,
        }
    }

    #[tactic(auto, unfolding(numbers::specs::Listed::all))]
    pub(crate) fn is_fit(self) -> bool
        ensures { result ≡ meets (brr_rule self) }
    {
        (self.nibble_idx <= 15) & ((self.buffer_fill == 0) | (self.buffer_fill == 16))
    }
}

// What a block leaves beside its samples: the two newest and the flags of its header.
#[derive(Clone, Copy, PartialEq, Eq)]
pub struct Block {
    pub prev1: i16,
    pub prev2: i16,
    pub end: bool,
    pub loops: bool,
}

// The byte at an address and an offset; the sum wraps at 65,536.
#[tactic(auto, unfolding(crate::specs::Ram::byte_at))]
pub(crate) fn ram_read8(ram: &[u8], addr: u16, offset: u16) -> u8
    requires { length ram.now ≡ 0x10000 }
    ensures { result ≡ byte_at ram.now (addr + offset) }
{
    let at = numbers::wrapping_add16(addr, offset) as usize;
    ram[at]
}

// A 16-bit pointer, low byte first.
#[tactic(auto, unfolding(crate::specs::Ram::word_at))]
pub(crate) fn read_le16(ram: &[u8], addr: u16, offset: u16) -> u16
    requires { (length ram.now ≡ 0x10000) × (offset < 0xFFFF) }
    ensures { result ≡ word_at ram.now (addr + offset) }
{
    let lo = ram_read8(ram, addr, offset) as u16;
    let hi = ram_read8(ram, addr, offset + 1) as u16;
    lo + 256 * hi
}

// One nibble of a block, under its header. The nibble is sign-extended where it is decoded.
#[tactic(auto, unfolding(crate::specs::Brr::sample_of))]
fn sample_of(header: u8, nibble: u8, prev1: i16, prev2: i16) -> i16
    requires { nibble < 16 }
    ensures { result ≡ sample_of header nibble prev1 prev2 }
{
    sound::decode_brr_nibble(nibble as i8, header / 16, header / 4 % 4, prev1, prev2)
}

// Decode the 9-byte block at addr: its 16 samples go to the lent slice.
pub(crate) fn decode_brr_block(
    ram: &[u8],
    addr: u16,
    prev1: i16,
    prev2: i16,
    samples: &mut [i16; 16],
) -> Block
    requires { length ram.now ≡ 0x10000 }
    ensures { as_decoded result samples.new ≡ decode_block ram.now addr prev1 prev2 }
{
    let header = ram_read8(ram, addr, 0);
    let mut p1 = prev1;
    let mut p2 = prev2;
    for i in 0..8 {
        let byte = ram_read8(ram, addr, 1 + i as u16);
        let s0 = sample_of(header, byte / 16, p1, p2);
        samples[i * 2] = s0;
        let s1 = sample_of(header, byte % 16, s0, p1);
        samples[i * 2 + 1] = s1;
        p2 = s0;
        p1 = s1;
    }
    Block {
        prev1: p1,
        prev2: p2,
        end: header % 2 == 1,
        loops: header / 2 % 2 == 1,
    }
}
