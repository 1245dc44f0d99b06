// A book as bytes that its host keeps, on a disk or wherever it likes, and goes on from after a restart. What the
// bytes are is said in specs/Saved.antt: a mark, the number of the format, the words, and document 01's sum over all
// bytes before it, little-endian.

#![tactic(auto)]

ghost use Rattle.std.specs.Prelude.{◌≡◌, ◌≤◌, length, take};
ghost use Rattle.model.specs.Bundles.{body_sum};
ghost use Rattle.basics.specs.Outputs.{Appends};
ghost use Rattle.saving.specs.Saved.{sum_at, summed, saved, load_reply, words_saved, LoadedAs};

use basics::output::Output;
use bundle::sums::body_sum;
use layout::{BOOK_WORDS, Book};
use pages::numbers::number4_at;
use writer::sinks::put_words;

// The mark: the letters S, A, P, L. As a number, since no call may make a constant.
const MARK: u32 = 1_280_328_019;
// The number of the format. A request that changes the layout of the words counts it up.
const FORMAT: u32 = 1;
// Where the format, the words and the sum stand, and how many bytes a saved book has: 5,532.
const FORMAT_AT: u32 = 4;

const WORDS_AT: u32 = 8;

const SUM_AT: usize = WORDS_AT as usize + 4 * BOOK_WORDS;

pub const SAVED_SIZE: usize = SUM_AT + 4;

// Why bytes are not loaded.
#[derive(Clone, Copy)]
pub enum LoadError {
    WrongMark,
    UnknownFormat,
    WrongLength,
    WrongSum,
}

// All before the sum: mark, format and words.
fn put_summed(out: &mut Output, words: &Book)
    ensures { Appends out.old (summed words.now) sum_at out.new }
{
    out.put_all(&MARK.to_le_bytes());
    out.put_all(&FORMAT.to_le_bytes());
    put_words(out, words);
}

// The sum of it, as it stands in the buffer.
fn sum_of(out: &Output) -> u32
    requires { sum_at ≤ length out.now.buffer.now }
    ensures { result ≡ body_sum (take sum_at out.now.buffer.now) }
{
    body_sum(&out.buffer[..SUM_AT])
}

// Saves a book: the buffer is the saved form, whatever it was.
pub fn save(words: &Book, out: &mut [u8; SAVED_SIZE])
    ensures { out.new ≡ saved words.now }
{
    let mut output = Output::new(out);
    put_summed(&mut output, words);
    let sum = sum_of(&output);
    output.put_all(&sum.to_le_bytes());
}

// Whether the bytes are a saved book: mark, format, length and sum are tried in this order.
#[tactic(auto, using(std::proofs::Common::tests), unfolding(crate::specs::Saved::load_reply))]
fn check(bytes: &[u8]) -> Result<(), LoadError>
    ensures { result ≡ load_reply bytes.now }
{
    if number4_at(bytes, 0) != MARK {
        return Err(LoadError::WrongMark);
    }
    if number4_at(bytes, FORMAT_AT) != FORMAT {
        return Err(LoadError::UnknownFormat);
    }
    if bytes.len() != SAVED_SIZE {
        return Err(LoadError::WrongLength);
    }
    if number4_at(bytes, SUM_AT as u32) != body_sum(&bytes[0..SUM_AT]) {
        return Err(LoadError::WrongSum);
    }
    Ok(())
}

// The words of a saved book. Into lent memory: by value the static library needs memmove from outside.
fn take_words(bytes: &[u8], words: &mut Book)
    ensures { words.new ≡ words_saved bytes.now }
{
    for i in 0..BOOK_WORDS {
        words[i] = number4_at(bytes, WORDS_AT + 4 * i as u32);
    }
}

// Loads a saved book: the words are those that were saved, whatever they were; or it is
// refused, and they are as they were.
pub fn load(words: &mut Book, bytes: &[u8]) -> Result<(), LoadError>
    ensures { LoadedAs words.old bytes.now result words.new }
{
    check(bytes)?;
    take_words(bytes, words);
    Ok(())
}
