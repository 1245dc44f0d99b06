// What takes bytes, one behind another: a lent buffer that they are written into, and the sum of a body.
ghost use Rattle.std.specs.Prelude.{ℕ, ◌*◌, ◌≤◌, List, [], ◌++◌, length};
ghost use Rattle.model.specs.Writing.{word_bytes};

use basics::output::Output;
use bundle::sums::with_byte;

pub trait Sink {
    ghost takes: { Self → List ℕ → Self → Type 0 };

    fn put_all(&mut self, bytes: &[u8])
        ensures { takes self.old bytes.now self.new };

    ghost nothing: { (a : Self) → takes a [] a };

    ghost then: { (a b c : Self) (xs ys : List ℕ) → takes a xs b → takes b ys c → takes a (xs ++ ys) c };
}

impl<'a> Sink for Output<'a> {
    ghost use Rattle.writer.specs.Sinks.{OutputTakes};
    ghost use Rattle.writer.specs.Sinks.{output_nothing, output_then};

    ghost takes = { OutputTakes };

    ghost nothing = { output_nothing };

    ghost then = { output_then };

    fn put_all(&mut self, bytes: &[u8]) {
        Output::put_all(self, bytes)
    }
}

// The sum of the bytes so far.
#[derive(Clone, Copy)]
pub struct Sum(pub u32);

impl Sink for Sum {
    ghost use Rattle.writer.specs.Sinks.{SumTakes};
    ghost use Rattle.writer.specs.Sinks.{sum_nothing, sum_then};

    ghost takes = { SumTakes };

    ghost nothing = { sum_nothing };

    ghost then = { sum_then };

    fn put_all(&mut self, bytes: &[u8]) {
        for b in bytes {
            self.0 = with_byte(self.0, *b);
        }
    }
}

// Numbers of 4 bytes, one behind another.
pub fn put_words<S: Sink>(to: &mut S, words: &[u32])
    ensures { S.takes to.old (word_bytes words.now) to.new × (length (word_bytes words.now) ≤ 4 * length words.now) }
{
    for word in words {
        to.put_all(&word.to_le_bytes());
    }
}
