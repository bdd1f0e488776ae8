// The answers of both sides, 0 to 15, 19 and 20, under the documents' names, with the NVMe status that an answer to a command stands for and the
// identifier's class that an answer 2 (Invalid Log Page) comes with.
//
// It rests on choices, for the words of its definitions. It promises that each answer's status is the one of specs/Answers.antt, that a
// refusal of the call itself has none, that the table has at every identifier the class that document 01's ranges say, and that the
// classes' counts are the document's (specs/Classes.antt).
#![tactic(auto)]

ghost use Rattle.std.specs.Prelude.{◌≡◌};
ghost use Rattle.answers.specs.Answers.{nvme_status, status_of, status_number, refusal_number, class_told, result_number};
ghost use Rattle.answers.specs.Classes.{class_of, class_number};

// Success.
pub const SUCCESS: u8 = 0;
// Invalid Field in Command.
pub const INVALID_FIELD: u8 = 1;
// Invalid Log Page, with the identifier's class.
pub const INVALID_LOG_PAGE: u8 = 2;
// The transfer buffer is shorter than the transfer.
pub const SHORT_BUFFER: u8 = 3;
// The record and the lent stores disagree.
pub const DISAGREE: u8 = 4;
// Broken candidate.
pub const BROKEN_CANDIDATE: u8 = 5;
// Area 4 is wanted without DA4S and ETDAS.
pub const NO_AREA_4: u8 = 6;
// Bad header.
pub const BAD_HEADER: u8 = 7;
// The wanted area is larger than the copy.
pub const NO_ROOM: u8 = 8;
// Attempts used up.
pub const ATTEMPTS_USED_UP: u8 = 9;
// Withdrawn: an 08h header no longer shows TCDA 1.
pub const WITHDRAWN: u8 = 10;
// Nothing: the first 08h header shows TCDA 0.
pub const NOTHING: u8 = 11;
// The controller broke its word.
pub const BROKE_ITS_WORD: u8 = 12;
// Bad setup or state, bad builder arguments.
pub const BAD_SETUP: u8 = 13;
// Already ended.
pub const ALREADY_ENDED: u8 = 14;
// The completion doesn't fit the awaited command.
pub const DOES_NOT_FIT: u8 = 15;
// The wanted area is past block 31, which no command without extended data reaches.
pub const OUT_OF_REACH: u8 = 19;
// A total of a sheet would pass 18,446,744,073,709,551,615.
pub const TOTAL_FULL: u8 = 20;

// Status code type 0h.
const GENERIC: u8 = 0x0;
// Status code type 1h.
const COMMAND_SPECIFIC: u8 = 0x1;

// What the identifier of a page says of it, by document 004: the page is named there, or in another specification; it is the vendor's; or it is reserved.
#[derive(Clone, Copy, PartialEq, Eq)]
pub enum PageClass {
    Named,
    Elsewhere,
    Vendor,
    Reserved,
}

impl PageClass {
    // The paper's number of a class, 0 to 3.
    pub fn number(self) -> u8
        ensures { result ≡ class_number self }
    {
        match self {
            PageClass::Named => 0,
            PageClass::Elsewhere => 1,
            PageClass::Vendor => 2,
            PageClass::Reserved => 3,
        }
    }
}

// Why a call, or a plan made of a header, gives nothing. A bad header, whose fault is told with it, is a `NoPlan` of the crate completions, and what ends
// a collection that has begun an `Ending` of the crate endings.
#[derive(Clone, Copy, PartialEq, Eq)]
pub enum Refusal {
    InvalidField,
    InvalidLogPage(PageClass),
    ShortBuffer,
    Disagree,
    BrokenCandidate,
    NoArea4,
    NoRoom,
    Nothing,
    BadSetup,
    AlreadyEnded,
    DoesNotFit,
    OutOfReach,
    TotalFull,
}

impl Refusal {
    // The paper's number of a refusal.
    pub fn number(self) -> u8
        ensures { result ≡ refusal_number self }
    {
        match self {
            Refusal::InvalidField => INVALID_FIELD,
            Refusal::InvalidLogPage(_) => INVALID_LOG_PAGE,
            Refusal::ShortBuffer => SHORT_BUFFER,
            Refusal::Disagree => DISAGREE,
            Refusal::BrokenCandidate => BROKEN_CANDIDATE,
            Refusal::NoArea4 => NO_AREA_4,
            Refusal::NoRoom => NO_ROOM,
            Refusal::Nothing => NOTHING,
            Refusal::BadSetup => BAD_SETUP,
            Refusal::AlreadyEnded => ALREADY_ENDED,
            Refusal::DoesNotFit => DOES_NOT_FIT,
            Refusal::OutOfReach => OUT_OF_REACH,
            Refusal::TotalFull => TOTAL_FULL,
        }
    }

    // The number of the class that a refusal comes with: 0 with any but an invalid log page.
    pub fn class_number(self) -> u8
        ensures { result ≡ class_told self }
    {
        match self {
            Refusal::InvalidLogPage(class) => class.number(),
            _ => 0,
        }
    }
}

// The paper's number of an answer: 0 with what was asked for, else its refusal's.
pub fn number<T: Copy>(answer: Result<T, Refusal>) -> u8
    ensures { result ≡ result_number answer }
{
    match answer {
        Ok(_) => SUCCESS,
        Err(refusal) => refusal.number(),
    }
}

// An NVMe status: status code type and status code.
#[derive(Clone, Copy, PartialEq, Eq)]
pub struct Status {
    pub sct: u8,
    pub sc: u8,
}

fn nvme(sct: u8, sc: u8) -> Option<Status>
    ensures { result ≡ nvme_status sct sc }
{
    Some(Status { sct, sc })
}

// The NVMe status of an answer, which is any number, since C asks by one. None is given for one that refuses the call itself, nor for a number that is no answer.
pub fn status_of(answer: u8) -> Option<Status>
    ensures { result ≡ status_of answer }
{
    match answer {
        SUCCESS => nvme(GENERIC, 0x00),
        INVALID_FIELD => nvme(GENERIC, 0x02),
        INVALID_LOG_PAGE => nvme(COMMAND_SPECIFIC, 0x09),
        _ => None,
    }
}

// The number of an answer that has no NVMe status, which the C interface has.
const NO_NUMBER: u16 = 0xffff;

// The NVMe status of an answer as one number.
pub fn status_number(answer: u8) -> u16
    ensures { result ≡ status_number (status_of answer) }
{
    match status_of(answer) {
        Some(status) => 256 * (status.sct as u16) + (status.sc as u16),
        None => NO_NUMBER,
    }
}

// The class of each identifier as a digit, so that the table reads by its rows: a row for each high half of the identifier, 0h to Fh, and in it the low half, 0h to Fh.
const CLASSES: [u8; 256] = *b"\
    0000000000000010\
    0000000001000000\
    0000303333333333\
    3333333333333333\
    3333333333333333\
    3333333333333333\
    3333333333333333\
    0000333333333330\
    0011111111111111\
    1111111111111111\
    1111111111111111\
    1111111111111111\
    2222222222222222\
    2222222222222222\
    2222222222222222\
    2222222222222222";

// The number of the identifier's class: every u8 has an entry.
fn class_digit(identifier: u8) -> u8
    ensures { result ≡ class_of identifier }
{
    CLASSES[identifier as usize] - b'0'
}

// The identifier's class.
pub fn class(identifier: u8) -> PageClass
    ensures { class_number result ≡ class_of identifier }
{
    match class_digit(identifier) {
        0 => PageClass::Named,
        1 => PageClass::Elsewhere,
        2 => PageClass::Vendor,
        _ => PageClass::Reserved,
    }
}
