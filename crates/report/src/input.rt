// What a program reads: bytes of a reader or a file, and RAM from ram.bin.
ghost use Rattle.std.specs.Prelude.{◌≡◌, length};
ghost use Rattle.std.specs.Counts.{IsPrefixLen};
ghost use Rattle.report.specs.Input.{Taken};

use std::fs;
use std::io::{ErrorKind, Read};
use std::rt::Files;

// Why RAM was not loaded.
#[derive(Clone, Copy)]
pub enum Unloaded {
    OtherLength,
    Unreadable,
}

// Reads until the buffer is full or the input ends: so many bytes at the start of the buffer, or none where a read failed.
pub fn fill<R: Read>(from: &mut R, buf: &mut [u8]) -> Option<usize>
    ensures { Taken result buf.new }
{
    let mut done: usize = 0;
    while done < buf.len() {
        let n = from.read(&mut buf[done..]).ok()?;
        if n == 0 {
            break;
        }
        done += n;
    }
    Some(done)
}

// The same, but a read that fails ends it too: how many bytes came before.
pub fn read_full<R: Read>(from: &mut R, buf: &mut [u8]) -> usize
    ensures { IsPrefixLen result buf.new }
{
    let mut done: usize = 0;
    while done < buf.len() {
        match from.read(&mut buf[done..]) {
            Ok(0) | Err(_) => break,
            Ok(n) => done += n,
        }
    }
    done
}

// The file of that name, to be read. The library takes names in UTF-8 alone.
pub fn opened<F: Files>(rt: &F, name: &[u8]) -> Option<F::File> {
    match str::from_utf8(name) {
        Ok(text) => fs::open(rt, text).ok(),
        Err(_) => None,
    }
}

// The first bytes of a file, at most as many as the buffer has.
pub fn file(rt: &impl Files, name: &[u8], buf: &mut [u8]) -> Option<usize>
    ensures { Taken result buf.new }
{
    fill(&mut opened(rt, name)?, buf)
}

// A missing ram.bin counts as 0 bytes.
pub fn load(rt: &impl Files, ram: &mut [u8]) -> Result<(), Unloaded>
    ensures { length ram.new ≡ length ram.old }
{
    match fs::open(rt, "ram.bin") {
        Ok(mut found) => image(&mut found, ram),
        Err(e) => {
            if e.kind() == ErrorKind::NotFound {
                return Err(Unloaded::OtherLength);
            }
            Err(Unloaded::Unreadable)
        }
    }
}

// One byte more is asked for, to see that there is none.
fn image<R: Read>(from: &mut R, ram: &mut [u8]) -> Result<(), Unloaded> {
    let size = fill(from, ram).ok_or(Unloaded::Unreadable)?;
    let mut more = [0u8; 1];
    if size == ram.len() && fill(from, &mut more).ok_or(Unloaded::Unreadable)? == 0 {
        return Ok(());
    }
    Err(Unloaded::OtherLength)
}
