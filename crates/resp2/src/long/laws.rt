//! What is read of a value that may be long.

ghost use Rattle.resp2.specs.Long.LongLaws.{PassesOver, ReadsWhatIsSpelled};

/// What a reader of long values reads at the front of a stream is what its first value tells: a frame tells itself, and
/// a bulk string of up to 16 MiB tells all of its bytes, or, where these are more than 65,536, the whole lines of its
/// first 65,536. Such a value is read whatever follows it, and the bytes of it that were passed over change nothing.
pub fn law_long_values()
    ensures reads { ReadsWhatIsSpelled }
    ensures passes { PassesOver }
{}
