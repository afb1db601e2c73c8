// The calls on a session, and what they answer.
ghost use Rattle.std.specs.Prelude.{◌≡◌};
ghost use Rattle.session.specs.Refusals.{session_refusal};

use refusals::Refusal;
use std::error::Error;
use std::fmt;

/// Why a call is refused.
#[derive(Clone, Copy, PartialEq, Eq, Debug)]
pub enum SessionFault {
    /// there are fewer trail places or marks than items, or fewer places for answers than calls
    Memory,
    /// an item or a count is out of range, or the rulebook has another item count
    Item,
    /// the reason of an item that is not active is asked for
    Inactive,
}

impl From<SessionFault> for Refusal {
    ghost from_gives = { λ fault refusal. refusal ≡ session_refusal fault };

    fn from(fault: SessionFault) -> Refusal {
        let number = match fault {
            SessionFault::Memory => 9,
            SessionFault::Item => 10,
            SessionFault::Inactive => 11,
        };
        Refusal::about_no_record(number)
    }
}

impl fmt::Display for SessionFault {
    fn fmt<W: fmt::Write>(&self, f: &mut fmt::Formatter<W>) -> fmt::Result {
        f.write_str(match self {
            SessionFault::Memory => "too little memory for the items or the answers",
            SessionFault::Item => "an item out of range, or a rulebook of another item count",
            SessionFault::Inactive => "the item is not active",
        })
    }
}

impl Error for SessionFault {}

/// How far settling came.
#[derive(Clone, Copy, PartialEq, Eq, Debug)]
pub enum Outcome {
    /// nothing is pending, after so many steps
    Settled(u32),
    /// the budget is spent, and more is to be done
    Pending,
}

/// The causes of an active item, as its trail record has them.
#[derive(Clone, Copy, PartialEq, Eq, Debug)]
pub struct Reason {
    /// the trail number of the item whose watch entry was taken
    pub first: Option<u32>,
    /// the trail number of the partner in that entry, if it had one
    pub second: Option<u32>,
}

/// A call on a session, as a value.
#[derive(Clone, Copy, PartialEq, Eq, Debug)]
pub enum Call<'a> {
    /// to request items
    Request(&'a [u32]),
    /// to settle within so many steps
    Settle(u32),
    /// whether an item is active
    Active(u32),
    /// what made an item active
    Reason(u32),
}

/// What a call answers.
#[derive(Clone, Copy, PartialEq, Eq, Debug)]
pub enum Answer {
    /// of a request
    Request(Result<(), SessionFault>),
    /// of settling
    Settle(Result<Outcome, SessionFault>),
    /// whether the item is active
    Active(Result<bool, SessionFault>),
    /// what made the item active
    Reason(Result<Reason, SessionFault>),
}
