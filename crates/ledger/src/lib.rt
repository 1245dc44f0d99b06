// The ledger's operations, on a book that the caller lends: the opening, the switch, the five kinds of message, and the
// waiting list. Each is total: it takes any words and any value of its types, and its contract says what it replies and
// leaves, by the documents' definitions. What a function promises is a record of specs/Promises.antt.

#![tactic(auto)]

ghost use Rattle.model.specs.declared.Message.TheVariants.{Request, Circulated, Ack, Decision, Inquiry};
ghost use Rattle.layout.specs.Layout.{ledger_in};
ghost use Rattle.ledger.specs.Promises.{Answered, OpenedAs, SwitchedAs, ListedAs};

use calls::messages;
use layout::{Book, HeldBook};
use listing;
use model::{Account, Message, Opening, Refusal, Reply, Seat, Transfer};
use opening::open_page;
use switching::take_over;

// The opening: the words are the page's ledger, whatever they were; or it is refused, and they are as they were.
#[tactic(auto, unfolding(model::specs::Openings::open_reply))]
pub fn open(words: &mut Book, page: Opening) -> Result<(), Refusal>
    ensures { OpenedAs words.old page result words.new }
{
    open_page(words, page)
}

// The switch of a book held from before request 5 of document 02: the words are the ledger that the held
// one becomes, whatever they were.
pub fn switch(held: &HeldBook, words: &mut Book)
    ensures { SwitchedAs held.now words.new }
{
    take_over(held, words);
}

// Any message.
pub fn call(words: &mut Book, m: Message) -> Reply
    ensures { Answered words.old m result words.new }
{
    match m {
        Message::Request(t) => messages::request(words, t),
        Message::Circulated(t) => messages::acknowledge(words, t),
        Message::Ack(s, t) => messages::receive_ack(words, s, t),
        Message::Decision(t) => messages::decide(words, t),
        Message::Inquiry(a) => messages::inquire(words, a),
    }
}

// A home's new transfer: circulate it. The words stay the same.
pub fn request(words: &Book, t: Transfer) -> Reply
    ensures { Answered words.now (Request t) result words.now }
{
    messages::request(words, t)
}

// A circulated transfer (document 01: slip): this seat acks it.
pub fn acknowledge(words: &mut Book, t: Transfer) -> Reply
    ensures { Answered words.old (Circulated t) result words.new }
{
    messages::acknowledge(words, t)
}

// A seat's ack of a transfer: it is recorded, and the tally decides; or it brings a late proposal.
pub fn receive_ack(words: &mut Book, s: Seat, t: Transfer) -> Reply
    ensures { Answered words.old (Ack s t) result words.new }
{
    messages::receive_ack(words, s, t)
}

// The council's decision (document 01: ruling): its transfer is accepted.
pub fn decide(words: &mut Book, t: Transfer) -> Reply
    ensures { Answered words.old (Decision t) result words.new }
{
    messages::decide(words, t)
}

// A balance question. The words stay the same.
pub fn inquire(words: &Book, a: Account) -> Reply
    ensures { Answered words.now (Inquiry a) result words.now }
{
    messages::inquire(words, a)
}

// The waiting list: the accounts at which a transfer waits, lowest first, into the front of the
// buffer. The words stay the same.
pub fn list_waiting(words: &Book, buffer: &mut [u8]) -> Result<u32, Refusal>
    ensures { ListedAs (ledger_in words.now) buffer.old result buffer.new }
{
    listing::list_waiting(words, buffer)
}
