//! Laws of the spelling and of the reading, for all values and all bytes.
ghost use Rattle.std.specs.Prelude.{◌≡◌, ◌↔◌, ◌≤◌, ◌++◌, ℕ, List, length, Ok, Err};
ghost use Rattle.resp2.specs.declared.framing.fault.FrameFault.{FrameFault};
ghost use Rattle.resp2.specs.declared.framing.fault.FrameFault.TheVariants.{NoMemory};
ghost use Rattle.resp2.specs.declared.framing.fault.Unread.TheVariants.{NeedsMore, Faulty};
ghost use Rattle.resp2.specs.Framing.Frame.{Frame, spelling, IsPlain, IsFrame};
ghost use Rattle.resp2.specs.Framing.Reading.{frame_at, Stays};
ghost use Rattle.resp2.specs.Framing.Stream.{Held, Splits};
ghost use Rattle.resp2.specs.Framing.Faults.{IsFaulted, MayGoOn};

/// No spelling begins another value's spelling.
#[tactic(auto, using(crate::proofs::FramingLemmas::Streams::one_spelling))]
pub fn law_one_spelling()
    ensures { (f g : Frame) (x y : List ℕ) → IsPlain f → IsPlain g
        → spelling f ++ x ≡ spelling g ++ y → (f ≡ g) × (x ≡ y) }
{}

/// What is read from the front is a value's spelling, and such a spelling is read, whatever follows
/// it.
pub fn law_reading_is_spelling()
    ensures { (bytes : List ℕ) (f : Frame) (rest : List ℕ)
        → (frame_at bytes ≡ Ok (f, rest)) ↔ ((bytes ≡ spelling f ++ rest) × IsFrame f) }
{}

/// A value or a fault that was read stays when more bytes come.
pub fn law_fault_and_value_stay()
    ensures { (piece bytes : List ℕ) → Stays piece (frame_at bytes) (frame_at (bytes ++ piece)) }
{}

/// A stream is one list of values, and what it ends in, however it was cut.
pub fn law_one_split()
    ensures { (stream : List ℕ) (fs gs : List Frame) (h k : Held)
        → Splits stream fs h → Splits stream gs k → (fs ≡ gs) × (h ≡ k) }
{}

/// Where a fault shows, no value follows, whatever comes.
pub fn law_no_value_behind_a_fault()
    ensures { (bytes more rest : List ℕ) (fault : FrameFault) (f : Frame)
        → frame_at bytes ≡ Err (Faulty fault) → IsFrame f
        → bytes ++ more ≡ spelling f ++ rest → ⊥ }
{}

/// More bytes are needed only while a frame may still go on.
pub fn law_waits_within_a_frame()
    ensures { (bytes : List ℕ) → frame_at bytes ≡ Err NeedsMore → length bytes ≤ 65536 }
{}

/// A fault of a stream shows if, and only if, the grammar's table says so, and is the one that it names; more bytes are
/// needed if, and only if, these may still become a frame. No reader stands in the table.
pub fn law_faults()
    ensures fault { (bytes : List ℕ) (fault : FrameFault)
        → (frame_at bytes ≡ Err (Faulty fault)) ↔ IsFaulted fault bytes }
    ensures waits { (bytes : List ℕ) → (frame_at bytes ≡ Err NeedsMore) ↔ MayGoOn bytes }
    // A refused allocation is no fault of the bytes.
    ensures memory { (bytes : List ℕ) → frame_at bytes ≡ Err (Faulty NoMemory) → ⊥ }
{}
