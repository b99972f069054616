//! A value of the Redis serialization protocol, version 2.
use ballot_law::Text;

/// A value of the Redis serialization protocol, version 2 (RESP2).
///
/// In a stream a value has at most 65,536 bytes, nests at most 8 deep (a value that isn't an array
/// is 1 deep) and has at most 1,024 items in each array. A value in memory has no such limits.
#[derive(Drop, PartialEq)]
pub enum Value {
    /// A simple string, `+` and a line without CR and LF: the answer to a command that went well.
    Simple(Text),
    /// An error, `-` and a line without CR and LF, as `ERR unknown command`.
    Fault(Text),
    /// An integer, `:`.
    Int(i64),
    /// A bulk string, `$`: any bytes.
    Bulk(Text),
    /// The null bulk string, `$-1`.
    NullBulk,
    /// An array, `*`.
    Items(Vec<Value>),
    /// The null array, `*-1`.
    NullItems,
}
