// The writer for hosts: the messages are fixed records of 12 bytes, kind (1), seat (1), body (10).
ghost use Rattle.std.specs.Prelude.{◌<◌, ◌≤◌, ◌≡◌, IfSome, length, take, map};
ghost use Rattle.std.specs.List.{position};
ghost use Rattle.model.specs.Bundles.{message_or, wrong_page};
ghost use Rattle.writer.specs.Promises.{WroteAll, WroteRecords};
ghost use Rattle.writer.specs.RecordLists.{page_in, record_message};

use crate::{MOST_MESSAGES, write};
use bundle::checks::is_wrong_entry;
use model::{Account, BundleError, ContentsEntry, Message, Opening, Refusal};
use pages::messages::message_from;

// Kind, seat and ten bytes of a body.
const RECORD_SIZE: usize = 12;

type Record = [u8; RECORD_SIZE];

// 14, of a record: its entry in the contents would be wrong, wherever its body starts.
fn is_wrong_record(bytes: &Record) -> bool
    ensures { result ≡ wrong_page 1 (page_in bytes.now) }
{
    let c = ContentsEntry {
        kind: bytes[0],
        seat: bytes[1],
        start: 0,
        sum: 0,
    };
    is_wrong_entry(1, 0, c)
}

// The lowest record that is wrong.
fn first_wrong(records: &[Record]) -> Option<usize>
    ensures first { result ≡ position (λ bytes. wrong_page 1 (page_in bytes)) records.now }
    ensures below { IfSome result (λ i. i < length records.now) }
{
    records.iter().position(|record| is_wrong_record(record))
}

// A page's message, or a question where it is none.
pub fn message_or(asked: Option<Message>) -> Message
    ensures { result ≡ message_or asked }
{
    asked.unwrap_or(Message::Inquiry(Account(0)))
}

// The message of a record.
fn message_in(bytes: &Record) -> Message
    ensures { result ≡ record_message bytes.now }
{
    message_or(message_from(bytes[0], bytes[1], &bytes[2..]))
}

// The messages of records, at the front of an array. Into lent memory: by value it takes three times the stack.
fn messages_in(records: &[Record], messages: &mut [Message; MOST_MESSAGES])
    requires { length records.now ≤ 999 }
    ensures { take (length records.now) messages.new ≡ map record_message records.now }
{
    for (i, record) in records.iter().enumerate() {
        messages[i] = message_in(record);
    }
}

// The bundle of the messages of records, few enough. A function of its own, so that a refusal lays down no array.
fn write_messages(page: Opening, records: &[Record], out: &mut [u8]) -> Result<u32, BundleError>
    requires { length records.now ≤ 999 }
    ensures { WroteAll page (map record_message records.now) out.old result out.new }
{
    let mut messages = [Message::Inquiry(Account(0)); MOST_MESSAGES];
    messages_in(records, &mut messages);
    write(page, &messages, records.len(), out)
}

// Writes the bundle of a page and of the messages in the records, as `write` does. 18 for more than 999 whole records;
// then 14 with the entry of the lowest record whose kind is no message's or that has a seat where its kind has none; 15
// where the last record is not whole; 19.
pub fn write_records(page: Opening, records: &[u8], out: &mut [u8]) -> Result<u32, BundleError>
    ensures { WroteRecords page records.now out.old result out.new }
{
    let (records, piece) = records.as_chunks::<RECORD_SIZE>();
    let count = records.len();
    if MOST_MESSAGES < count {
        return Err(BundleError::new(Refusal::TooManyMessages, 0));
    }
    if let Some(i) = first_wrong(records) {
        return Err(BundleError::new(Refusal::BadContents, i as u16 + 1));
    }
    if !piece.is_empty() {
        return Err(BundleError::new(Refusal::BadEnd, 0));
    }
    write_messages(page, records, out)
}
