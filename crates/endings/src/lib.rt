// How a collection ends: the paper's number of each ending, and what it tells beside it.
//
// It rests on answers and header. It promises the number and the values of each ending (specs/Endings.antt).
#![tactic(auto)]

ghost use Rattle.std.specs.Prelude.{◌≡◌};
ghost use Rattle.endings.specs.Endings.{number_of, newer_of, fault_in};

use header::Fault;

// How a collection ends: with success, and a newer capture acknowledged unread or not; or why not, a bad header with its fault.
#[derive(Clone, Copy, PartialEq, Eq)]
pub enum Ending {
    Success(bool),
    // Maybe with no fault: `judgement::judge` promises this ending of any header seen that answers 7, with any fault beside it or none.
    BadHeader(Option<Fault>),
    OutOfReach,
    NoRoom,
    UsedUp,
    Withdrawn,
    Nothing,
    BrokeItsWord,
}

impl Ending {
    // The paper's number of an ending.
    pub fn number(self) -> u8
        ensures { result ≡ number_of self }
    {
        match self {
            Ending::Success(_) => answers::SUCCESS,
            Ending::BadHeader(_) => answers::BAD_HEADER,
            Ending::OutOfReach => answers::OUT_OF_REACH,
            Ending::NoRoom => answers::NO_ROOM,
            Ending::UsedUp => answers::ATTEMPTS_USED_UP,
            Ending::Withdrawn => answers::WITHDRAWN,
            Ending::Nothing => answers::NOTHING,
            Ending::BrokeItsWord => answers::BROKE_ITS_WORD,
        }
    }

    // Whether an ending acknowledged a newer capture unread.
    pub fn newer(self) -> bool
        ensures { result ≡ newer_of self }
    {
        matches!(self, Ending::Success(true))
    }

    // What is at fault in the header that an ending came by: nothing with any but a bad header's.
    pub fn fault(self) -> Option<Fault>
        ensures { result ≡ fault_in self }
    {
        match self {
            Ending::BadHeader(fault) => fault,
            _ => None,
        }
    }
}
