// What a page holds: an opening, or a message.
ghost use Rattle.std.specs.Prelude.{◌≡◌};
ghost use Rattle.model.specs.Bundles.{words_from, opening_of, transfer_of, page_of, message_of};

use crate::contents::body;
use crate::kinds::Kind;
use crate::numbers::{byte_at, number4_at};
use model::{Account, ContentsEntry, Message, Opening, Seat, Transfer};
use std::array;

// The balances of an opening page, which stand behind n, f and k.
fn balances_of(body: &[u8]) -> [u32; 32]
    ensures { result ≡ words_from 32 3 body.now }
{
    array::from_fn(|i| number4_at(body, 3 + 4 * i as u32))
}

// The opening page that a body holds.
pub fn opening_of(body: &[u8]) -> Opening
    ensures { result ≡ opening_of body.now }
{
    Opening {
        seats: byte_at(body, 0),
        faults: byte_at(body, 1),
        accounts: byte_at(body, 2),
        balances: balances_of(body),
    }
}

// The transfer that a body holds: account (1), number (4), value (4), recipient (1).
pub fn transfer_of(body: &[u8]) -> Transfer
    ensures { result ≡ transfer_of body.now }
{
    Transfer {
        account: Account(byte_at(body, 0)),
        number: number4_at(body, 1),
        value: number4_at(body, 5),
        recipient: Account(byte_at(body, 9)),
    }
}

// The message that a body holds, by its kind. Kind 0 is the opening page and no message, nor is a kind
// above 5. The seat is an ack's alone.
pub fn message_from(kind: u8, seat: u8, body: &[u8]) -> Option<Message>
    ensures { result ≡ message_of (record { kind = kind; seat = seat; body = body.now }) }
{
    match Kind::try_from(kind).ok()? {
        Kind::Opening => None,
        Kind::Request => Some(Message::Request(transfer_of(body))),
        Kind::Circulated => Some(Message::Circulated(transfer_of(body))),
        Kind::Ack => Some(Message::Ack(Seat(seat), transfer_of(body))),
        Kind::Decision => Some(Message::Decision(transfer_of(body))),
        Kind::Inquiry => Some(Message::Inquiry(Account(byte_at(body, 0)))),
    }
}

// The message of an entry's page, if it is one.
pub fn message_of(bytes: &[u8], c: ContentsEntry) -> Option<Message>
    ensures { result ≡ message_of (page_of bytes.now c) }
{
    message_from(c.kind, c.seat, body(bytes, c))
}
