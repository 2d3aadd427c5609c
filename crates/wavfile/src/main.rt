// The program `wavfile` (document 02, W-201): `wavfile write PCM WAV` turns samples, as `bench` writes them, into a WAV file;
// `wavfile read WAV PCM` turns a WAV file of that layout back into samples. It prints FRAMES and their number, or REFUSED, the
// refusal and what it says; a file that is refused leaves the other unopened. What cannot be read or written is named on
// standard error.
#![tactic(auto)]

mod filing;

ghost use Rattle.std.specs.Counts.{IsPrefixLen};

use report::lines::complain;
use std::env::{Env, FillError};

fn main(rt: HostRuntime) {
    let mut way = [0u8; 4096];
    let mut from = [0u8; 4096];
    let mut to = [0u8; 4096];
    let w = word(&rt, 1, &mut way);
    let f = word(&rt, 2, &mut from);
    let t = word(&rt, 3, &mut to);
    asked(&rt, &way[..w], &from[..f], &to[..t]);
}

// A word that is missing or too long for a path has no bytes here.
fn word(rt: &impl Env, i: usize, buf: &mut [u8]) -> usize
    ensures { IsPrefixLen result buf.new }
{
    rt.arg(i, buf).unwrap_or(0)
}

// Whether there is a word past the third.
fn goes_on(rt: &impl Env) -> bool {
    let mut more = [0u8; 1];
    match rt.arg(4, &mut more) {
        Err(FillError::NotPresent) => false,
        _ => true,
    }
}

fn asked(rt: &HostRuntime, way: &[u8], from: &[u8], to: &[u8]) {
    if (from.len() == 0) | (to.len() == 0) | goes_on(rt) {
        usage(rt);
    } else if way == b"write".as_slice() {
        filing::write(rt, from, to);
    } else if way == b"read".as_slice() {
        filing::read(rt, from, to);
    } else {
        usage(rt);
    }
}

fn usage(rt: &HostRuntime) {
    complain(
        &rt.stderr(),
        b"usage: wavfile write PCM WAV | wavfile read WAV PCM\n",
    );
}
