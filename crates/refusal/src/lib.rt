// The refusals of document 01's table, and the one that document 02 adds, by name; and what a refused call hands back.
#![tactic(auto)]

ghost use Rattle.std.specs.Prelude.{◌≡◌};
ghost use Rattle.refusal.specs.Refusal.{number, code};

use std::error::Error;
use std::fmt;

#[derive(Clone, Copy, Debug, PartialEq, Eq)]
pub enum Refusal {
    // The RAM slice isn't 65,536 bytes.
    RamSize,
    // A given record is unfit.
    Unfit,
    // The log is over 60,000 bytes.
    LogTooLong,
    UnknownMark,
    // The log stops inside a mark or a record.
    CutShort,
    // A register above $7F in a log.
    NoRegister,
    // A tick count of 0, or over 32,000 ticks in all.
    TickCount,
    // The log stops with no end record.
    NoEnd,
    // Bytes after the end record.
    BehindEnd,
    // A lent slice isn't exactly as long as is needed.
    WrongRoom,
    // A rework of a log with FLG bit 5 clear at some tick.
    EchoWrites,
    // A rework of logs that differ outside the named voices.
    LogsDiffer,
    // A sound file of another layout (document 02, W-201).
    NotWav,
}

impl Refusal {
    // "A refusal answers its number".
    pub fn number(self) -> u8
        ensures { result ≡ number self }
    {
        match self {
            Refusal::RamSize => 1,
            Refusal::Unfit => 2,
            Refusal::LogTooLong => 3,
            Refusal::UnknownMark => 4,
            Refusal::CutShort => 5,
            Refusal::NoRegister => 6,
            Refusal::TickCount => 7,
            Refusal::NoEnd => 8,
            Refusal::BehindEnd => 9,
            Refusal::WrongRoom => 10,
            Refusal::EchoWrites => 11,
            Refusal::LogsDiffer => 12,
            Refusal::NotWav => 13,
        }
    }

    // A call refused, with what it was given.
    pub fn of<T>(self, given: T) -> Refused<T>
        ensures { (result.refusal ≡ self) × (result.given ≡ given) }
    {
        Refused {
            refusal: self,
            given,
        }
    }
}

impl From<Refusal> for u8 {
    ghost from_gives = { λ r n. n ≡ number r };

    fn from(refusal: Refusal) -> u8 {
        refusal.number()
    }
}

// A refusal is shown as its number.
impl fmt::Display for Refusal {
    fn fmt<W: fmt::Write>(&self, f: &mut fmt::Formatter<W>) -> fmt::Result {
        let number = self.number();
        write!(f, "{number}")
    }
}

impl Error for Refusal {}

// "A refusal answers its number, the record given".
#[derive(Clone, Copy, PartialEq, Eq)]
pub struct Refused<T> {
    pub refusal: Refusal,
    pub given: T,
}

// "Success answers 0."
pub fn code<T: Drop>(answer: &Result<T, Refusal>) -> u8
    ensures { result ≡ code answer.now }
{
    match answer {
        Ok(_) => 0,
        Err(refusal) => refusal.number(),
    }
}
