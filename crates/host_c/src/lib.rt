// The static library for hosts in Rust and C: each of these functions is that of its name in `host`, exported, with the
// same contract. In C a slice is a pointer and a length, an array the pointer alone; include/saplull.h states each of
// them for C.

#![tactic(auto)]

ghost use Rattle.std.specs.Prelude.{◌≡◌};
ghost use Rattle.model.specs.Acks.{enough};
ghost use Rattle.model.specs.Refusals.{list_refusal};
ghost use Rattle.model.specs.Bundles.{body_sum, transfer_of, check_bundle};
ghost use Rattle.model.specs.Joins.{evidence};
ghost use Rattle.model.specs.Calls.{waiting_accounts};
ghost use Rattle.layout.specs.Layout.{book_words, ledger_in};
ghost use Rattle.ledger.specs.Promises.{SwitchedAs};
ghost use Rattle.replay.specs.Lists.{accounts_behind, refusal_behind};
ghost use Rattle.replay.specs.Text.{text_of};
ghost use Rattle.replay.specs.Promises.{Replayed};
ghost use Rattle.saving.specs.Saved.{saved_size, saved};
ghost use Rattle.host.specs.Messages.{ToldOpening, ToldCall};
ghost use Rattle.host.specs.Keeping.{ToldLoad};
ghost use Rattle.host.specs.Quorums.{Fewest};
ghost use Rattle.host.specs.Waiting.{ToldList};
ghost use Rattle.host.specs.BundleNumbers.{number_of_bundle, ToldWriting};
ghost use Rattle.host.specs.Evidences.{evidence_words};

use host::{EVIDENCE_WORDS, PAGE_SIZE, REPLY_WORDS, SLIP_SIZE};
use layout::{Book, HeldBook};
use replay::TEXT_SIZE;
use saving::SAVED_SIZE;

#[unsafe(no_mangle)]
pub extern "C" fn ledger_words() -> u32
    ensures { result ≡ book_words }
{
    host::ledger_words()
}

#[unsafe(no_mangle)]
pub extern "C" fn ledger_open(words: &mut Book, page: &[u8]) -> u8
    ensures { ToldOpening words.old page.now result words.new }
{
    host::ledger_open(words, page)
}

#[unsafe(no_mangle)]
pub extern "C" fn ledger_switch(held: &HeldBook, words: &mut Book)
    ensures { SwitchedAs held.now words.new }
{
    host::ledger_switch(held, words);
}

#[unsafe(no_mangle)]
pub extern "C" fn ledger_call(
    words: &mut Book,
    kind: u8,
    seat: u8,
    body: &[u8],
    reply: &mut [u32; REPLY_WORDS],
)
    ensures { ToldCall words.old (record { kind = kind; seat = seat; body = body.now }) words.new reply.new }
{
    host::ledger_call(words, kind, seat, body, reply);
}

#[unsafe(no_mangle)]
pub extern "C" fn ledger_waiting(words: &Book, list: &mut [u8]) -> u32
    ensures { ToldList (list_refusal list.old) (waiting_accounts (ledger_in words.now)) list.old result list.new }
{
    host::ledger_waiting(words, list)
}

#[unsafe(no_mangle)]
pub extern "C" fn ledger_saved_size() -> u32
    ensures { result ≡ saved_size }
{
    host::ledger_saved_size()
}

#[unsafe(no_mangle)]
pub extern "C" fn ledger_save(words: &Book, bytes: &mut [u8; SAVED_SIZE])
    ensures { bytes.new ≡ saved words.now }
{
    host::ledger_save(words, bytes);
}

#[unsafe(no_mangle)]
pub extern "C" fn ledger_load(words: &mut Book, bytes: &[u8]) -> u8
    ensures { ToldLoad words.old bytes.now result words.new }
{
    host::ledger_load(words, bytes)
}

#[unsafe(no_mangle)]
pub extern "C" fn ledger_acks_needed(seats: u8, faults: u8) -> u16
    ensures { Fewest seats faults result }
{
    host::ledger_acks_needed(seats, faults)
}

#[unsafe(no_mangle)]
pub extern "C" fn ledger_is_enough(seats: u8, faults: u8, acks: u8) -> bool
    ensures { result ≡ enough seats faults acks }
{
    host::ledger_is_enough(seats, faults, acks)
}

#[unsafe(no_mangle)]
pub extern "C" fn daybook_text(bytes: &[u8], text: &mut [u8; TEXT_SIZE]) -> usize
    ensures { Replayed (text_of bytes.now) text.old text.new result }
{
    host::daybook_text(bytes, text)
}

#[unsafe(no_mangle)]
pub extern "C" fn daybook_waiting(bytes: &[u8], list: &mut [u8]) -> u32
    ensures { ToldList (refusal_behind bytes.now list.old) (accounts_behind bytes.now) list.old result list.new }
{
    host::daybook_waiting(bytes, list)
}

#[unsafe(no_mangle)]
pub extern "C" fn bundle_check(bytes: &[u8]) -> u32
    ensures { result ≡ number_of_bundle (check_bundle bytes.now) }
{
    host::bundle_check(bytes)
}

#[unsafe(no_mangle)]
pub extern "C" fn bundle_sum(body: &[u8]) -> u32
    ensures { result ≡ body_sum body.now }
{
    host::bundle_sum(body)
}

#[unsafe(no_mangle)]
pub extern "C" fn bundle_write(page: &[u8; PAGE_SIZE], records: &[u8], out: &mut [u8]) -> u32
    ensures { ToldWriting page.now records.now out.old result out.new }
{
    host::bundle_write(page, records, out)
}

#[unsafe(no_mangle)]
pub extern "C" fn bundle_evidence<'a>(
    first: &'a [u8],
    second: &'a [u8],
    ruled: &[u8; SLIP_SIZE],
    reply: &mut [u32; EVIDENCE_WORDS],
)
    ensures { reply.new ≡ evidence_words first.now second.now (evidence first.now second.now (transfer_of ruled.now)) }
{
    host::bundle_evidence(first, second, ruled, reply);
}
