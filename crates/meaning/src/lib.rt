// What the finder means: the types that the meaning shares with the code. Document 01 stands as definitions in specs/.
#![tactic(auto)]

ghost use Rattle.std.specs.Prelude.{◌≡◌};
ghost use Rattle.meaning.specs.Call.{says};
ghost use Rattle.meaning.specs.Refusals.{fault_number, told, Names};

use std::fmt;

// "one of three named kinds": 0 plain, 1 pruned, 2 all terms.
#[derive(Clone, Copy, Debug, PartialEq, Eq)]
pub enum Mode {
    Plain,
    Pruned,
    All,
}

// A number above 2, which names no mode.
#[derive(Clone, Copy, Debug, PartialEq, Eq)]
pub struct UnknownMode;

impl TryFrom<u32> for Mode {
    type Error = UnknownMode;

    ghost try_from_gives = { Names };

    #[tactic(auto, unfolding(crate::specs::Sheet::mode_of))]
    fn try_from(number: u32) -> Result<Mode, UnknownMode> {
        match number {
            0 => Ok(Mode::Plain),
            1 => Ok(Mode::Pruned),
            2 => Ok(Mode::All),
            _ => Err(UnknownMode),
        }
    }
}

// What can be at fault, a row of the table of refusals each, in its order.
#[derive(Clone, Copy, Debug, PartialEq, Eq)]
pub enum Fault {
    // 1: "image under 8 bytes"
    ShortImage,
    // 2: "version not 1"
    Version,
    // 3: "length field not the image's length, or 8 + 8T exceeds it"
    Length,
    // 4: "directory: postings 0 with another field not 0; postings above N; list not at its due bit"
    Entry,
    // 5: "block head or body passes the image's end; w above 24; more postings than the list has left"
    Block,
    // 6: "document number N or above, or impact 0"
    Posting,
    // 7: "a block's last document or largest impact, or a list's largest impact, is not the true one"
    Untrue,
    // 8: "bits left after the last list are more than 7 or not all zero"
    BitsLeft,
    // 9: "queries not 1 to 64; numbers missing or left over"
    Numbers,
    // 10: "mode above 2"
    Mode,
    // 11: "k not 1 to 64"
    Rows,
    // 12: "q not 1 to 16"
    Mentions,
    // 13: "term T or above"
    Term,
    // 14: "weight not 1 to 255"
    Weight,
    // 15: "answer row too short"
    Room,
}

// A fault's number in the table.
impl From<Fault> for u32 {
    ghost from_gives = { λ fault number. number ≡ fault_number fault };

    fn from(fault: Fault) -> u32 {
        match fault {
            Fault::ShortImage => 1,
            Fault::Version => 2,
            Fault::Length => 3,
            Fault::Entry => 4,
            Fault::Block => 5,
            Fault::Posting => 6,
            Fault::Untrue => 7,
            Fault::BitsLeft => 8,
            Fault::Numbers => 9,
            Fault::Mode => 10,
            Fault::Rows => 11,
            Fault::Mentions => 12,
            Fault::Term => 13,
            Fault::Weight => 14,
            Fault::Room => 15,
        }
    }
}

// "refused with a number and a place".
#[derive(Clone, Copy, Debug, PartialEq, Eq)]
pub struct Refusal {
    pub fault: Fault,
    pub place: usize,
}

impl fmt::Display for Refusal {
    fn fmt<W: fmt::Write>(&self, f: &mut fmt::Formatter<W>) -> fmt::Result {
        write!(f, "refused {} {}", u32::from(self.fault), self.place)
    }
}

// "either done with the count of numbers filled, or refused with a number and a place".
#[derive(Clone, Copy, Debug, PartialEq, Eq)]
pub enum Outcome {
    Done(usize),
    Refused(u32, usize),
}

impl From<Result<usize, Refusal>> for Outcome {
    ghost from_gives = { λ answered outcome. says outcome ≡ told answered };

    #[tactic(auto, unfolding(crate::specs::Call::says))]
    fn from(answered: Result<usize, Refusal>) -> Outcome {
        match answered {
            Ok(count) => Outcome::Done(count),
            Err(refusal) => Outcome::Refused(u32::from(refusal.fault), refusal.place),
        }
    }
}

// A row of an answer: a document and its score.
#[derive(Clone, Copy, Debug, Default, PartialEq, Eq)]
pub struct Row {
    pub doc: u32,
    pub score: u32,
}
