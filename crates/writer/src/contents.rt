// The contents of a bundle: the entry of each page. Start and sum are computed, never given.
ghost use Rattle.std.specs.Prelude.{◌≡◌, length};
ghost use Rattle.model.specs.Writing.{page_zero, message_page, entry_bytes, entry_for};
ghost use Rattle.pages.specs.Kinds.{number_of};
ghost use Rattle.basics.specs.Outputs.{Appends};

use crate::bodies::{put_message, put_opening};
use crate::sinks::Sum;
use basics::output::Output;
use model::{ContentsEntry, Message, Opening};
use pages::contents::body_length;
use pages::kinds::Kind;

// A message's kind.
fn kind_of(m: Message) -> Kind
    ensures { number_of result ≡ (message_page m).kind }
{
    match m {
        Message::Request(_) => Kind::Request,
        Message::Circulated(_) => Kind::Circulated,
        Message::Ack(_, _) => Kind::Ack,
        Message::Decision(_) => Kind::Decision,
        Message::Inquiry(_) => Kind::Inquiry,
    }
}

// The seat of a message's entry: an ack's own, and 0 where the kind has none.
fn seat_of(m: Message) -> u8
    ensures { result ≡ (message_page m).seat }
{
    match m {
        Message::Ack(seat, _) => seat.0,
        _ => 0,
    }
}

// How long a message's body is.
pub fn message_length(m: Message) -> usize
    ensures { result ≡ length (message_page m).body }
{
    body_length(kind_of(m).into())
}

// The entry of a message whose body starts at a place.
pub fn message_entry(m: Message, start: u16) -> ContentsEntry
    ensures { result ≡ entry_for start (message_page m) }
{
    let mut sum = Sum(0);
    put_message(&mut sum, m);
    ContentsEntry {
        kind: kind_of(m).into(),
        seat: seat_of(m),
        start,
        sum: sum.0,
    }
}

// The entry of the opening page.
pub fn opening_entry(page: Opening, start: u16) -> ContentsEntry
    ensures { result ≡ entry_for start (page_zero page) }
{
    let mut sum = Sum(0);
    put_opening(&mut sum, page);
    ContentsEntry {
        kind: Kind::Opening.into(),
        seat: 0,
        start,
        sum: sum.0,
    }
}

// An entry's eight bytes: kind (1), seat (1), start (2), sum (4).
pub fn put_entry(out: &mut Output, c: ContentsEntry)
    ensures { Appends out.old (entry_bytes c) 8 out.new }
{
    out.put(c.kind);
    out.put(c.seat);
    out.put_all(&c.start.to_le_bytes());
    out.put_all(&c.sum.to_le_bytes());
}
