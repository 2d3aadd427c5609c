// The program `bench` (document 01): the log on standard input, RAM from ram.bin, the samples to out.pcm, the readings
// on standard output. What cannot be read or written is named on standard error, and no END line follows: that tells how a
// run ended, and the exit status is 0 always.
#![tactic(auto)]

mod running;

ghost use Rattle.std.specs.Prelude.{◌≤◌, length};

use chip_log::Measured;
use refusal::Refusal;
use report::input::Unloaded;
use report::lines::complain;
use report::{input, lines};
use running::Stopped;
use std::fs;
use std::os::fd::AsRawFd;

// RAM is checked before the log is read.
fn main(rt: HostRuntime) {
    let mut ram = [0u8; 65536];
    match input::load(&rt, &mut ram) {
        Ok(()) => with_ram(&rt, &mut ram),
        Err(Unloaded::OtherLength) => told(&rt, lines::refused(&rt, Refusal::RamSize)),
        Err(Unloaded::Unreadable) => complain(&rt.stderr(), b"bench: cannot read ram.bin\n"),
    }
}

// One byte more than a log may have: input without an end is over the limit, and no more of it is read.
fn with_ram(rt: &HostRuntime, ram: &mut [u8]) {
    let mut log = [0u8; 60001];
    match input::fill(&mut rt.stdin(), &mut log) {
        Some(n) => with_log(rt, ram, &log[..n]),
        None => complain(&rt.stderr(), b"bench: cannot read standard input\n"),
    }
}

// The whole log is checked before out.pcm is opened.
fn with_log(rt: &HostRuntime, ram: &mut [u8], log: &[u8])
    requires { length log.now ≤ 0x10000 }
{
    match chip_log::measure(log) {
        Ok(m) => tell(rt, m, with_file(rt, ram, log)),
        Err(refusal) => told(rt, lines::refused(rt, refusal)),
    }
}

// Where standard output is closed, its number goes to the file that is opened next.
fn with_file(rt: &HostRuntime, ram: &mut [u8], log: &[u8]) -> Result<(), Stopped>
    requires { length log.now ≤ 0x10000 }
{
    let Ok(mut out) = fs::create(rt, "out.pcm") else {
        return Err(Stopped::NoSound);
    };
    if out.as_raw_fd() == rt.stdout().as_raw_fd() {
        return Err(Stopped::NoLines);
    }
    running::run(rt, ram, log, &mut out)
}

fn tell(rt: &HostRuntime, m: Measured, ran: Result<(), Stopped>) {
    match ran {
        Ok(()) => told(rt, lines::end(rt, m.ticks as u64, m.readings as u64)),
        Err(Stopped::Refused(refusal)) => told(rt, lines::refused(rt, refusal)),
        Err(Stopped::NoSound) => complain(&rt.stderr(), b"bench: cannot write out.pcm\n"),
        Err(Stopped::NoLines) => told(rt, false),
    }
}

// Whether a line went out.
fn told(rt: &HostRuntime, written: bool) {
    if !written {
        complain(&rt.stderr(), b"bench: cannot write standard output\n");
    }
}
