// The text that `daybook` writes, line by line, into a lent buffer: numbers in decimal, the line of a reply, of a
// refused bundle and of an account.

#![tactic(auto)]

pub mod lines;
pub mod output;
