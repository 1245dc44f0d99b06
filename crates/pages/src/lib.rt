// A bundle's pages, read from its bytes: numbers, kinds, the contents, bodies, and the message or the opening page that
// a body holds. Whether the bundle is sound is the crate above's question; here every function takes any bytes.

#![tactic(auto)]

pub mod contents;
pub mod kinds;
pub mod messages;
pub mod numbers;
