// Interpolation: four of the 512 weights weigh the four newest samples.
ghost use Rattle.std.specs.Prelude.{◌≡◌, ◌<◌};
ghost use Rattle.sound.specs.Gauss.{weights};
ghost use Rattle.dsp.specs.Interpolation.{tap_z, interpolate_z};

use sound::gauss_table;

// Lent as one value: a constant that is indexed in place is built on the stack at each use.
#[derive(Drop)]
pub struct Weights {
    pub table: [i16; 512],
    ghost whole: { table ≡ weights },
}

impl Weights {
    pub(crate) fn new() -> Self {
        Weights {
            table: gauss_table(),
        }
    }

    // One sample weighted by the entry at i.
    fn tap(&self, i: usize, x: i16) -> i32
        requires { i < 512 }
        ensures { result ≡ tap_z i x }
    {
        ((self.table[i] as i32) * (x as i32)) >> 11
    }

    // The output at a position of which bits 11-4 are the fraction, from four samples, oldest first. The sum of
    // the first three taps is cut to 16 bits before the fourth is added, as the hardware does.
    pub(crate) fn interpolate(&self, position: u16, h: [i16; 4]) -> i16
        ensures { result ≡ interpolate_z position h }
    {
        let i = (position / 16 % 256) as usize;
        let first = self.tap(255 - i, h[0]) + self.tap(511 - i, h[1]) + self.tap(i + 256, h[2]);
        numbers::clamp16(numbers::cut16(first) + self.tap(i, h[3])) as i16
    }
}
