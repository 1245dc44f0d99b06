// What a host hands over, a kind, a seat and a body, is met as a page of a bundle is, before all else.
ghost use Rattle.std.specs.Prelude.{◌≡◌};
ghost use Rattle.model.specs.Refusals.{first_refusal, check_of};
ghost use Rattle.host.specs.Handing.{handed_rules};
ghost use Rattle.host.specs.Messages.{AnsweredAs};

use bundle::checks::is_wrong_entry;
use layout::Book;
use ledger::call;
use model::{ContentsEntry, Refusal, Reply};
use pages::contents::body_length;
use pages::messages::message_from;
use writer::records::message_or;

// As entry i of a bundle: 14 for a kind that cannot stand there, or a seat other than 0 where the kind has none; 15 for
// a body that is not as long as its kind's.
pub fn check_handed(i: u16, kind: u8, seat: u8, body: &[u8]) -> Result<(), Refusal>
    ensures { result ≡ check_of (first_refusal (handed_rules i (record { kind = kind; seat = seat; body = body.now }))) }
{
    let entry = ContentsEntry {
        kind,
        seat,
        start: 0,
        sum: 0,
    };
    if is_wrong_entry(i, 0, entry) {
        return Err(Refusal::BadContents);
    }
    if body.len() != body_length(kind) {
        return Err(Refusal::BadEnd);
    }
    Ok(())
}

// What is handed over as a message, answered.
pub fn answer(words: &mut Book, kind: u8, seat: u8, body: &[u8]) -> Reply
    ensures { AnsweredAs words.old (record { kind = kind; seat = seat; body = body.now }) result words.new }
{
    match check_handed(1, kind, seat, body) {
        Err(r) => Reply::Refuse(r),
        Ok(()) => call(words, message_or(message_from(kind, seat, body))),
    }
}
