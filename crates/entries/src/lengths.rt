// "1: RAM slice isn't 65,536 bytes", before "2: a given record is unfit".
ghost use Rattle.std.specs.Prelude.{◌≤◌};

use crate::calls::{ready, stepped};
use crate::lines::line;
use crate::parts::{Part, with};
use dsp::Dsp;
use report::lines::say;

fn length(out: &impl Print, words: &[u8], d: Dsp, n: usize)
    requires { n ≤ 65537 }
{
    let values = [n as u64];
    line(out, b"RAM of #", &values);
    say(out, words);
    stepped(out, d, n);
    say(out, b"\n");
}

fn lengths(out: &impl Print, words: &[u8], d: Dsp) {
    length(out, words, d, 0);
    length(out, words, d, 65535);
    length(out, words, d, 65536);
    length(out, words, d, 65537);
}

pub fn all(out: &impl Print) {
    lengths(out, b", fit:", ready());
    lengths(out, b", unfit:", with(Part::Level, 0, 0x801));
}
