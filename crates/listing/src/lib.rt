// The waiting list, of the ledger where it lies.

#![tactic(auto)]

ghost use Rattle.layout.specs.Layout.{ledger_in};
ghost use Rattle.model.specs.Calls.{waiting_accounts, Lists};

use layout::Book;
use model::{Account, Refusal};
use store::pending_of;

// The accounts at which a transfer waits, lowest first, into the front of the buffer. The ledger stays the same.
pub fn list_waiting(words: &Book, buffer: &mut [u8]) -> Result<u32, Refusal>
    ensures { Lists (waiting_accounts (ledger_in words.now)) buffer.old result buffer.new }
{
    if buffer.len() < 32 {
        return Err(Refusal::ShortBuffer);
    }
    let mut n = 0;
    for i in 0..32 {
        if pending_of(words, Account(i)).is_some() {
            buffer[n] = i;
            n += 1;
        }
    }
    Ok(n as u32)
}
