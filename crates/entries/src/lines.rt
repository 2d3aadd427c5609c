// The lines, by their patterns.
ghost use Rattle.std.specs.Prelude.{◌≤◌};

use report::lines::{number, say};

// How many values the sign stands for: one, # in decimal, $ in hex behind the sign itself, ? as `same` or `changed`, @ as a
// letter. Any other stands for itself, and for none.
fn put(out: &impl Print, sign: u8, value: u64) -> usize
    ensures { result ≤ 1 }
{
    match sign {
        b'#' => {
            number(out, value);
            1
        }
        b'$' => {
            say(out, b"$");
            hex(out, value);
            1
        }
        b'?' => {
            verdict(out, value == 1);
            1
        }
        b'@' => {
            letter(out, (value % 256) as u8);
            1
        }
        _ => {
            letter(out, sign);
            0
        }
    }
}

fn hex(out: &impl Print, value: u64) {
    let _ = print!(out; "{value:x}");
}

fn letter(out: &impl Print, byte: u8) {
    say(out, &[byte]);
}

fn verdict(out: &impl Print, same: bool) {
    if same {
        say(out, b"same");
    } else {
        say(out, b"changed");
    }
}

// The values in their order; 0 where there are too few.
pub fn line(out: &impl Print, pattern: &[u8], values: &[u64]) {
    let mut used: usize = 0;
    for sign in pattern {
        let value = values.get(used).copied().unwrap_or(0);
        used += put(out, *sign, value);
    }
}
