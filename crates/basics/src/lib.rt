// What the crates above share: transfers compared, places tested, quorums, bytes written into a lent buffer.

#![tactic(auto)]

pub mod output;
pub mod quorums;
pub mod slots;
pub mod transfers;
