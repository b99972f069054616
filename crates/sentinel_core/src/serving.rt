//! A stream of commands, served from the bytes of a reader to the bytes of a writer.
//!
//! `serve_stream` reads values, has a `PortSentinel` take the commands that they are, and writes the answers, each once
//! what it rests on is stored. What a stream is answered, and how the serving of it ends, stands in `Serving`.

mod connection;
mod fault;
mod port_sentinel;
mod streams;

pub use connection::{READS_MAX, Served, law_reads, serve_stream};
pub use fault::ServeFault;
pub use port_sentinel::PortSentinel;
