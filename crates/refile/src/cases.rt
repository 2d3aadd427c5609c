// The file of cases: 0 to write or 1 to read; how many bytes are lent (32 bits, low byte first); how many bytes of the source stand
// in the file (16 bits) and how many are made behind them (32 bits); the seed of those; then the bytes that stand there.
use crate::filed::{read, written};
use report::cases::stops;
use report::input::read_full;
use report::lines::numbered;
use report::runs::within;
use std::io::Read;

const HEAD: usize = 12;

const FRONT_MOST: u16 = 256;

// The longest file, and some bytes more.
const ROOM: usize = 128064;

const WRITE: u8 = 0;

const READ: u8 = 1;

#[derive(Clone, Copy)]
struct Asked {
    way: u8,
    lent: u32,
    front: u16,
    fill: u32,
    seed: u8,
}

impl Asked {
    fn size(self) -> usize {
        self.front as usize + self.fill as usize
    }

    fn fits(self) -> bool {
        (self.front <= FRONT_MOST) & (self.size() <= ROOM) & (self.lent as usize <= ROOM)
    }
}

// Whether there was a case.
pub fn next<R: Read>(out: &impl Print, file: &mut R, number: u64) -> bool {
    let mut head = [0u8; 12];
    let got = read_full(file, &mut head);
    if got == 0 {
        return false;
    }
    if got < HEAD {
        return stops(out);
    }
    numbered(out, b"CASE ", number);
    with_room(
        out,
        file,
        Asked {
            way: head[0],
            lent: u32::from_le_bytes([head[1], head[2], head[3], head[4]]),
            front: u16::from_le_bytes([head[5], head[6]]),
            fill: u32::from_le_bytes([head[7], head[8], head[9], head[10]]),
            seed: head[11],
        },
    )
}

// What is lent is filled with other bytes than a file has, so that it shows what was written.
fn with_room<R: Read>(out: &impl Print, file: &mut R, asked: Asked) -> bool {
    let mut source = [0; 128064];
    let mut to = [0xA5; 128064];
    let mut back = [0; 128064];
    one(out, file, asked, &mut source, &mut to, &mut back)
}

// Behind a reference an array's length is its type's, and no check has to count its bytes.
fn one<R: Read>(
    out: &impl Print,
    file: &mut R,
    asked: Asked,
    source: &mut [u8; 128064],
    to: &mut [u8; 128064],
    back: &mut [u8; 128064],
) -> bool {
    if !asked.fits() {
        return stops(out);
    }
    let end = within(asked.size(), source);
    let lent = within(asked.lent as usize, to);
    filled(out, file, asked, &mut source[..end], &mut to[..lent], back)
}

fn filled<R: Read>(
    out: &impl Print,
    file: &mut R,
    asked: Asked,
    source: &mut [u8],
    to: &mut [u8],
    back: &mut [u8],
) -> bool {
    let front = within(asked.front as usize, source);
    if read_full(file, &mut source[..front]) < front {
        return stops(out);
    }
    make(asked.seed, &mut source[front..]);
    match asked.way {
        WRITE => written(out, source, to, back),
        READ => read(out, source, to, back),
        _ => stops(out),
    }
}

// Byte k is seed + 31k + k / 256, modulo 256.
fn make(seed: u8, to: &mut [u8]) {
    for (k, byte) in to.iter_mut().enumerate() {
        *byte = ((seed as usize + 31 * (k % 256) + k / 256 % 256) % 256) as u8;
    }
}
