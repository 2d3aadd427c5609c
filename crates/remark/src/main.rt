// The program `remark`: must a sitting be marked again after a change of named voices? RAM from ram.bin, the named voices from
// named.bin (a mask of one byte), the old log from old.bin, the new one on standard input; the answer, in words, on standard output.
// What cannot be read or written is named on standard error.
#![tactic(auto)]

mod answer;
mod marking;
mod telling;
mod words;

use answer::Unworked;
use refusal::Refusal;
use report::input;
use report::input::Unloaded;
use report::lines::complain;

fn main(rt: HostRuntime) {
    let mut ram = [0u8; 65536];
    let loaded = input::load(&rt, &mut ram);
    let mut own = ram;
    match loaded {
        Ok(()) => with_ram(&rt, &ram, &mut own),
        Err(Unloaded::OtherLength) => told(
            &rt,
            words::refused(&rt, Unworked::New(Refusal::RamSize)),
        ),
        Err(Unloaded::Unreadable) => complain(&rt.stderr(), b"remark: cannot read ram.bin\n"),
    }
}

fn with_ram(rt: &HostRuntime, ram: &[u8], own: &mut [u8]) {
    let mut named = [0u8; 2];
    match input::file(rt, b"named.bin", &mut named) {
        Some(1) => with_named(rt, ram, own, named[0]),
        Some(_) => complain(&rt.stderr(), b"remark: named.bin is not one byte\n"),
        None => complain(&rt.stderr(), b"remark: cannot read named.bin\n"),
    }
}

// One byte more than a log may have: input without an end is over the limit, and no more of it is read.
fn with_named(rt: &HostRuntime, ram: &[u8], own: &mut [u8], named: u8) {
    let mut old = [0u8; 60001];
    match input::file(rt, b"old.bin", &mut old) {
        Some(n) => with_old(rt, ram, own, named, &old[..n]),
        None => complain(&rt.stderr(), b"remark: cannot read old.bin\n"),
    }
}

fn with_old(rt: &HostRuntime, ram: &[u8], own: &mut [u8], named: u8, old: &[u8]) {
    let mut new = [0u8; 60001];
    match input::fill(&mut rt.stdin(), &mut new) {
        Some(n) => told(rt, telling::told(rt, named, ram, own, old, &new[..n])),
        None => complain(&rt.stderr(), b"remark: cannot read standard input\n"),
    }
}

// Whether all lines went out.
fn told(rt: &HostRuntime, written: bool) {
    if !written {
        complain(&rt.stderr(), b"remark: cannot write standard output\n");
    }
}
