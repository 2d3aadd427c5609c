// A file of cases, case by case, and what it holds: numbers of RAM images, and logs, each behind its length (16 bits, low byte first).
ghost use Rattle.std.specs.Prelude.{◌≡◌, ◌<◌, ◌≤◌, false};
ghost use Rattle.std.specs.Counts.{IsPrefixLen};
ghost use Rattle.report.specs.Input.{Taken, image_name};

use crate::input::{opened, read_full};
use crate::lines::say;
use std::io::Read;
use std::rt::Files;

// A file may have no end, as a device has none: no more cases than these are read.
const CASES_MOST: u64 = 1000;

// The images are ram0 to ram9.
pub const IMAGES: u8 = 10;

// The file `cases`, case by case with their numbers from 1, until one answers that there are no more: how many were asked for.
pub fn each<T: Files + Print, F: FnMut(&mut T::File, u64) -> bool>(rt: &T, mut next: F) -> u64
    requires { F.IsAlwaysCallable next }
    ensures { result ≤ 1000 }
{
    let Some(mut file) = opened(rt, b"cases") else {
        say(rt, b"cases cannot be read\n");
        return 0;
    };
    for number in 1..=CASES_MOST {
        if !next(&mut file, number) {
            return number;
        }
    }
    CASES_MOST
}

// Says that the file stops inside a case, so that there are no more.
pub fn stops(out: &impl Print) -> bool
    ensures { result ≡ false }
{
    say(out, b"cases stops inside a case\n");
    false
}

fn image_name(number: u8) -> [u8; 4]
    requires { number < 10 }
    ensures { result ≡ image_name number }
{
    [b'r', b'a', b'm', b'0' + number]
}

// How many bytes the image has, up to the one more than RAM has that shows it to be too long. A missing image has none, and a
// number from 10 up has no image.
pub fn image(rt: &impl Files, number: u8, ram: &mut [u8]) -> usize
    ensures { IsPrefixLen result ram.new × (10 ≤ number → (result ≡ 0) × (ram.new ≡ ram.old)) }
{
    if number >= IMAGES {
        return 0;
    }
    let name = image_name(number);
    match opened(rt, &name) {
        Some(mut found) => read_full(&mut found, ram),
        None => 0,
    }
}

// A log of the file; it fails where the file stops inside it.
pub fn stored_log<R: Read>(from: &mut R, buf: &mut [u8]) -> Option<usize>
    ensures { Taken result buf.new }
{
    let mut head = [0u8; 2];
    if read_full(from, &mut head) < 2 {
        return None;
    }
    let n = u16::from_le_bytes(head) as usize;
    if n > buf.len() || read_full(from, &mut buf[..n]) < n {
        return None;
    }
    Some(n)
}
