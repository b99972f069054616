//! What one input has a Sentinel put out, in order.

ghost use Rattle.std.specs.Prelude.{◌≡◌, ◌∷◌, [], IfOk};
ghost use Rattle.sentinel_rules.specs.Parts.{frame_if};
ghost use Rattle.sentinel_state.specs.Nodes.Room.{added};

use ballot_law::NoMemory;
use bounded_list::BoundedList;
use sentinel_rules::{FRAMES_MAX, Frame};
use std::alloc::Global;
use std::marker::Model;

/// What one input has a Sentinel put out, in order, in room that was made beforehand, so that adding takes no memory.
#[derive(Drop)]
pub struct FrameList {
    frames: BoundedList<Frame, FRAMES_MAX>,
}

impl Model for FrameList {
    ghost use Rattle.std.specs.Prelude.{List};
    ghost use Rattle.sentinel_rules.specs.declared.frames.Frame.{Frame};

    ghost Value = { List Frame };

    ghost view = { λ list. list.frames };
}

impl FrameList {
    /// An empty list with its room; `NoMemory` where there is no memory for it.
    pub fn with_room(alloc: Global) -> Result<FrameList, NoMemory>
        ensures { IfOk result (λ list. list ≡ []) }
    {
        let frames = BoundedList::with_room(alloc)?;
        Ok(FrameList { frames })
    }

    /// The frames in order.
    pub fn as_slice(&self) -> &[Frame]
        ensures { result.now ≡ self.now }
    {
        self.frames.as_slice()
    }

    /// Empties the list and keeps its room.
    pub fn clear(&mut self)
        ensures { self.new ≡ [] }
    {
        self.frames.clear();
    }

    /// Adds a frame, where there is room for it.
    pub fn push(&mut self, frame: Frame)
        ensures { self.new ≡ added self.old (frame ∷ []) }
    {
        self.frames.push(frame);
    }

    /// Adds a frame where the test holds.
    pub fn push_if(&mut self, test: bool, frame: Frame)
        ensures { self.new ≡ added self.old (frame_if test frame) }
    {
        if test {
            self.push(frame);
        }
    }
}
