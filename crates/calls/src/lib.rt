// The five kinds of message where the ledger lies, which ask for nothing of its content. The crate `ledger` has them
// beside the other operations.

#![tactic(auto)]

pub mod messages;
