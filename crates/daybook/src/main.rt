// The program `daybook`: reads a bundle from standard input, replays it, and writes its text to standard output. It
// reads at most 18,124 bytes, one more than the longest bundle has: by the contract of `replay_input` they give the
// text of the whole input. A read or a write that fails is told on standard error: a program has no status for it.

#![tactic(auto)]

use replay::{INPUT_SIZE, TEXT_SIZE, replay_input};
use std::io::{self, Read, Stdin};

// Reads standard input until the buffer is full, the input ends or a read fails: how many bytes were read, and that
// failure, if there was one.
fn take_input(mut stdin: Stdin, input: &mut [u8]) -> (usize, io::Result<()>) {
    let mut read = 0;
    while read < input.len() {
        match stdin.read(&mut input[read..]) {
            Ok(0) => break,
            Ok(more) => read += more,
            Err(e) => return (read, Err(e)),
        }
    }
    (read, Ok(()))
}

// What cannot be told on standard error is not told.
fn say(rt: &impl Eprint, line: &str) {
    let _ = rt.eprintln(line);
}

fn main(rt: HostRuntime) {
    let mut input = [0; INPUT_SIZE];
    let mut text = [0; TEXT_SIZE];
    let (read, reading) = take_input(rt.stdin(), &mut input);
    let filled = replay_input(&input, read, &mut text);
    if rt.write_all(&text[..filled]).is_err() {
        say(
            &rt,
            "daybook: standard output: writing failed, the text is not whole; see where it goes and run this again",
        );
    }
    if reading.is_err() {
        say(
            &rt,
            "daybook: standard input: reading failed, the text is of the bytes before; see to it and run this again",
        );
    }
}
