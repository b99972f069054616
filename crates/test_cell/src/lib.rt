//! Tests of a Sentinel that threads share, by the calls that its users have: what its seats get and are refused, an
//! address that is told while a store is held, and four threads whose calls are all answered.
#![tactic(auto)]

#[cfg(test)]
mod tests;
