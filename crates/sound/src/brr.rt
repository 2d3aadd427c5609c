// BRR: one nibble decoded.
ghost use Rattle.std.specs.Prelude.{◌≡◌, ◌%◌, ◌^◌, ◌≤◌, pos};
ghost use Rattle.numbers.specs.Signed.{cut_z};
ghost use Rattle.sound.specs.Brr.{scaled_z, filter_z, decode_nibble};

// The BRR prediction filter, on the two previous samples at 15-bit scale.
fn brr_filter(filter: u8, p1: i16, p2: i16) -> i32
    ensures { result ≡ filter_z (filter % 4) p1 p2 }
{
    let a = p1 as i32;
    let b = p2 as i32;
    match filter % 4 {
        0 => 0,
        1 => a + ((-a) >> 4),
        2 => 2 * a + ((-(3 * a)) >> 5) - b + (b >> 4),
        _ => 2 * a + ((-(13 * a)) >> 6) - b + ((3 * b) >> 4),
    }
}

fn pow2(shift: u8) -> i32
    requires { shift ≤ 12 }
    ensures { result ≡ pos (2 ^ shift) }
{
    (1u32 << shift) as i32
}

// The low 4 bits of a nibble, sign-extended, at 15-bit scale. Shifts above 12 are invalid on hardware and leave
// only the sign.
fn scaled(nibble: i8, shift: u8) -> i32
    ensures { result ≡ scaled_z (cut_z 8 nibble) shift }
{
    let n = numbers::cut4(nibble);
    if shift <= 12 {
        (n * pow2(shift)) >> 1
    } else if n < 0 {
        -0x800
    } else {
        0
    }
}

// Decode one 4-bit BRR nibble into a 16-bit sample. prev1 and prev2 are the two samples decoded before it,
// as this function returned them. The doubling is not clamped: some samples rely on the wrap.
pub fn decode_brr_nibble(nibble: i8, shift: u8, filter: u8, prev1: i16, prev2: i16) -> i16
    ensures { result ≡ decode_nibble nibble shift filter prev1 prev2 }
{
    let s = scaled(nibble, shift) + brr_filter(filter, prev1 >> 1, prev2 >> 1);
    numbers::cut16(2 * numbers::clamp16(s)) as i16
}
