// The bodies of pages: of a message, and of the opening page.
ghost use Rattle.std.specs.Prelude.{◌≤◌, length};
ghost use Rattle.model.specs.Writing.{page_zero, transfer_bytes, message_page};

use crate::sinks::{Sink, put_words};
use model::{Message, Opening, Transfer};

// A transfer's ten bytes: account (1), number (4), value (4), recipient (1).
fn put_transfer<S: Sink>(to: &mut S, t: Transfer)
    ensures { S.takes to.old (transfer_bytes t) to.new × (length (transfer_bytes t) ≤ 10) }
{
    to.put_all(&[t.account.0]);
    to.put_all(&t.number.to_le_bytes());
    to.put_all(&t.value.to_le_bytes());
    to.put_all(&[t.recipient.0]);
}

// A message's body, which has at most ten bytes.
pub fn put_message<S: Sink>(to: &mut S, m: Message)
    ensures { S.takes to.old (message_page m).body to.new × (length (message_page m).body ≤ 10) }
{
    match m {
        Message::Request(t) | Message::Circulated(t) | Message::Ack(_, t) | Message::Decision(t) =>
            put_transfer(to, t),
        Message::Inquiry(a) => to.put_all(&[a.0]),
    }
}

// The opening page's body, which has at most 131 bytes: n, f, k, 32 balances.
pub fn put_opening<S: Sink>(to: &mut S, page: Opening)
    ensures { S.takes to.old (page_zero page).body to.new × (length (page_zero page).body ≤ 131) }
{
    to.put_all(&[page.seats, page.faults, page.accounts]);
    put_words(to, &page.balances);
}
