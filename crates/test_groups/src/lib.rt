//! Tests of what runs: what a client of a port is answered, which confs are no group, that the Sentinels of a group talk
//! and don't wait for one another's stores, and that one of `watch` replaces a master by its sockets.
#![tactic(auto)]

#[cfg(test)]
mod tests;
