// The types of the credit ledger's calls and of its bundles, with the documents' numbers and letters of them. What they
// mean is said in specs/, and what a ledger is too: no code holds one. A comment names document 01's word where ours is
// another.

#![tactic(auto)]

// A seat's number, from 0. A type of its own, so that it never stands where an account's number is wanted.
#[derive(Clone, Copy, PartialEq, Eq)]
pub struct Seat(pub u8);

// An account's number, from 0.
#[derive(Clone, Copy, PartialEq, Eq)]
pub struct Account(pub u8);

// Document 01: slip.
#[derive(Clone, Copy, PartialEq, Eq)]
pub struct Transfer {
    // who pays
    pub account: Account,
    pub number: u32,
    pub value: u32,
    pub recipient: Account,
}

// The opening page.
#[derive(Clone, Copy)]
pub struct Opening {
    pub seats: u8,
    pub faults: u8,
    pub accounts: u8,
    pub balances: [u32; 32],
}

// The refusals, in the order of their codes, 1 to 21.
#[derive(Clone, Copy)]
pub enum Refusal {
    BadGroup,
    BadAccounts,
    SumTooLarge,
    UnknownSeat,
    OutOfRange,
    PastNumber,
    FutureNumber,
    AlreadyAccepted,
    AckRepeated,
    AckConflicting,
    InsufficientFunds,
    AlreadyAcked,
    BadHeader,
    BadContents,
    BadEnd,
    BadSum,
    ShortBuffer,
    TooManyMessages,
    NoRoom,
    SelfPayment,
    PagesDiffer,
}

// The documents' number of a refusal.
impl From<Refusal> for u8 {
    ghost use Rattle.std.specs.Prelude.{◌≡◌};
    ghost use Rattle.model.specs.Replies.{code_of};

    ghost from_gives = { λ r code. code ≡ code_of r };

    fn from(r: Refusal) -> u8 {
        match r {
            Refusal::BadGroup => 1,
            Refusal::BadAccounts => 2,
            Refusal::SumTooLarge => 3,
            Refusal::UnknownSeat => 4,
            Refusal::OutOfRange => 5,
            Refusal::PastNumber => 6,
            Refusal::FutureNumber => 7,
            Refusal::AlreadyAccepted => 8,
            Refusal::AckRepeated => 9,
            Refusal::AckConflicting => 10,
            Refusal::InsufficientFunds => 11,
            Refusal::AlreadyAcked => 12,
            Refusal::BadHeader => 13,
            Refusal::BadContents => 14,
            Refusal::BadEnd => 15,
            Refusal::BadSum => 16,
            Refusal::ShortBuffer => 17,
            Refusal::TooManyMessages => 18,
            Refusal::NoRoom => 19,
            Refusal::SelfPayment => 20,
            Refusal::PagesDiffer => 21,
        }
    }
}

// What a message asks for.
#[derive(Clone, Copy)]
pub enum Message {
    Request(Transfer),
    // a circulated slip
    Circulated(Transfer),
    Ack(Seat, Transfer),
    // a ruling
    Decision(Transfer),
    // a balance question
    Inquiry(Account),
}

// What a message is answered.
#[derive(Clone, Copy)]
pub enum Reply {
    Circulate,
    Acknowledge,
    // how many transfers the call applied
    Accept(u32),
    // the transfer put forward
    Propose(Transfer),
    Note,
    Balance(u32),
    Refuse(Refusal),
}

impl Reply {
    ghost use Rattle.std.specs.Prelude.{◌≡◌};
    ghost use Rattle.model.specs.Replies.{letter_of};

    // Document 01's letter.
    pub fn letter(self) -> u8
        ensures { result ≡ letter_of self }
    {
        match self {
            Reply::Circulate => b'C',
            Reply::Acknowledge => b'A',
            Reply::Accept(_) => b'K',
            Reply::Propose(_) => b'P',
            Reply::Note => b'N',
            Reply::Balance(_) => b'B',
            Reply::Refuse(_) => b'R',
        }
    }
}

// One entry of a bundle's contents.
#[derive(Clone, Copy)]
pub struct ContentsEntry {
    pub kind: u8,
    pub seat: u8,
    pub start: u16,
    pub sum: u32,
}

// A refusal of a bundle, and the entry at fault (0 where it is no entry's).
#[derive(Clone, Copy)]
pub struct BundleError {
    pub refusal: Refusal,
    pub entry: u16,
}

impl BundleError {
    ghost use Rattle.std.specs.Prelude.{◌≡◌};

    pub fn new(refusal: Refusal, entry: u16) -> BundleError
        ensures { result ≡ record { refusal = refusal; entry = entry } }
    {
        BundleError { refusal, entry }
    }
}

// Which of two bundles.
#[derive(Clone, Copy)]
pub enum Which {
    First,
    Second,
    Neither,
}

// Its number: 1, 2, or 0 for neither.
impl From<Which> for u8 {
    ghost use Rattle.std.specs.Prelude.{◌≡◌};
    ghost use Rattle.model.specs.Replies.{number_of_which};

    ghost from_gives = { λ which number. number ≡ number_of_which which };

    fn from(which: Which) -> u8 {
        match which {
            Which::First => 1,
            Which::Second => 2,
            Which::Neither => 0,
        }
    }
}

// A pair that the evidence join finds: the seat that acked two transfers, the entry of its ack in the first bundle and
// in the second, and which bundle's body is shown.
#[derive(Clone, Copy)]
pub struct FoundPair {
    pub seat: Seat,
    pub first: u16,
    pub second: u16,
    pub shown: Which,
}

// A refusal of the join, which bundle it is of, and the entry at fault (0 where it is no entry's).
#[derive(Clone, Copy)]
pub struct JoinError {
    pub refusal: Refusal,
    pub bundle: Which,
    pub entry: u16,
}
