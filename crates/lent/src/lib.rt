// The one entry that changes a machine record where it lies: `write_reg` on a record that is lent.
#![tactic(auto)]

ghost use Rattle.std.specs.Prelude.{◌≡◌};
ghost use Rattle.refusal.specs.Refusal.{code, told, handed};
ghost use Rattle.dsp.specs.Registers.{Written, write_of};

use dsp::{Answer, Dsp};
use refusal::Refusal;

// Refuses 2, and leaves the record as it was.
#[tactic(auto, unfolding(dsp::specs::Registers::write_of), using(refusal::proofs::Numbers::positive))]
pub fn write_reg_lent(d: &mut Dsp, index: u8, value: u8) -> Result<(), Refusal>
    ensures { (code result ≡ (write_of index value d.old).refusal) × (d.new ≡ (write_of index value d.old).dsp) }
{
    match d.write_reg(index, value) {
        Ok(after) => {
            *d = after;
            Ok(())
        }
        Err(e) => Err(e.refusal),
    }
}

// A caller: the record of a local is lent, and is read again once the loan is over.
pub fn write_owned(d: Dsp, index: u8, value: u8) -> Answer
    ensures { ◌≡◌ {A = Written} (record { refusal = told result; dsp = handed result }) (write_of index value d) }
{
    let mut e = d;
    match write_reg_lent(&mut e, index, value) {
        Ok(()) => Ok(e),
        Err(refusal) => Err(refusal.of(e)),
    }
}
