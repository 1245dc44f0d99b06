// The lines of the text.
ghost use Rattle.std.specs.Prelude.{◌+◌, length};
ghost use Rattle.model.specs.Replies.{values_of, values_of_transfer};
ghost use Rattle.basics.specs.Outputs.{Appends};
ghost use Rattle.text.specs.Lines.{decimal, carried, refusal_line, reply_line, account_line};

use crate::output::{put_decimal, put_value};
use basics::output::Output;
use model::{Reply, Transfer};

// A transfer's account, number, value and recipient.
fn put_transfer(out: &mut Output, t: Transfer)
    ensures { Appends out.old (carried (values_of_transfer t)) 30 out.new }
{
    put_value(out, t.account.0 as u32);
    put_value(out, t.number);
    put_value(out, t.value);
    put_value(out, t.recipient.0 as u32);
}

// What a reply carries: K the count, B the balance, P the slip, R the code; A, C and N nothing.
fn put_carried(out: &mut Output, r: Reply)
    ensures { Appends out.old (carried (values_of r)) 30 out.new }
{
    match r {
        Reply::Circulate | Reply::Acknowledge | Reply::Note => {}
        Reply::Accept(count) => put_value(out, count),
        Reply::Propose(t) => put_transfer(out, t),
        Reply::Balance(balance) => put_value(out, balance),
        Reply::Refuse(refusal) => put_value(out, u8::from(refusal) as u32),
    }
}

// The line of a message: entry, reply letter, and what it carries.
pub fn put_reply(out: &mut Output, entry: u32, r: Reply)
    ensures { Appends out.old (reply_line entry r) (length (decimal entry) + 33) out.new }
{
    put_decimal(out, entry);
    out.put(b' ');
    out.put(r.letter());
    put_carried(out, r);
    out.put(b'\n');
}

// The line of a refused bundle or opening: `F code entry`.
pub fn put_refusal(out: &mut Output, code: u8, entry: u16)
    ensures { Appends out.old (refusal_line code entry) 24 out.new }
{
    out.put(b'F');
    put_value(out, code as u32);
    put_value(out, entry as u32);
    out.put(b'\n');
}

// The line of an account: `= account balance current`.
pub fn put_account(out: &mut Output, account: u8, balance: u32, current: u32)
    ensures { Appends out.old (account_line account balance current) (length (decimal account) + 25) out.new }
{
    out.put(b'=');
    put_value(out, account as u32);
    put_value(out, balance);
    put_value(out, current);
    out.put(b'\n');
}
