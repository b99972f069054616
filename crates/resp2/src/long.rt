//! Values of which a bulk string by itself may have 16 MiB, read from a stream that comes in any pieces.
//!
//! `LongFrames` reads as `Frames` does, but that of a bulk string of more than 65,536 bytes it tells the whole lines of
//! the first 65,536, and takes no memory for what stands behind them.

mod end;
mod header;
mod laws;
mod long_bulk;
mod long_frames;
mod long_reading;

pub use laws::law_long_values;
pub use long_bulk::{BULK_MAX, HELD_MAX, TOLD_MAX};
pub use long_frames::LongFrames;
