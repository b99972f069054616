//! The turns of a node that isn't a Sentinel.

ghost use Rattle.std.specs.Prelude.{◌≡◌, ◌++◌, [], IfErr, OnOk, OnErr};
ghost use Rattle.std.specs.List.{AllByRecursion};
ghost use Rattle.sentinel_outbox.specs.Outboxes.{Fits, IsOfOther};
ghost use Rattle.boxed_nodes.specs.Moves.{Stays, Refuses, Stores, Releases, Stops, Starts};
ghost use Rattle.boxed_nodes.specs.declared.turn.Turn.TheVariants.{Ready, Pending};
ghost use Rattle.boxed_nodes.specs.Turns.{shown_at};

use crate::calls::HowStored;
use ballot_law::KeptText;
use sentinel_outbox::{Outbox, ReleaseFault, Room, StoreFault, TakeFault};

/// How far the last input has come.
#[derive(Clone, Copy, PartialEq, Eq)]
pub enum Turn {
    /// The next input can be taken.
    Ready,
    /// An input was taken and waits to be stored.
    Pending,
    /// It was stored, and what it gave waits to be released.
    Stored,
    /// The node was stopped.
    Stopped,
}

impl Turn {
    /// Takes the turn of an input, for which the outbox has to have this room. The fault is that of the turn, and
    /// `NoRoom` is told of a ready node alone; then nothing has changed.
    pub fn take(&mut self, outbox: &Outbox, room: &Room) -> Result<(), TakeFault>
        ensures was { OnOk result (self.old ≡ Ready) }
        ensures is { OnOk result (self.new ≡ Pending) }
        ensures fits { OnOk result (Fits outbox.now room.now) }
        ensures refuses { IfErr result (Refuses (shown_at self.old) (Fits outbox.now room.now)) }
        ensures stays { OnErr result (self.new ≡ self.old) }
    {
        match self {
            Turn::Ready => {
                if !outbox.fits(room) {
                    return Err(TakeFault::NoRoom);
                }
                *self = Turn::Pending;
                Ok(())
            }
            Turn::Pending => Err(TakeFault::Busy),
            Turn::Stored => Err(TakeFault::Busy),
            Turn::Stopped => Err(TakeFault::Stopped),
        }
    }

    /// Stores the input that was taken; with nothing to store no store is refused.
    pub fn store(&mut self, _how: HowStored) -> Result<(), StoreFault>
        ensures { Stores _how result (shown_at self.old) (shown_at self.new) }
    {
        match self {
            Turn::Pending => {
                *self = Turn::Stored;
                Ok(())
            }
            Turn::Ready => Err(StoreFault::Nothing),
            Turn::Stored => Err(StoreFault::Nothing),
            Turn::Stopped => Err(StoreFault::Nothing),
        }
    }

    /// Releases what is held, once its input is stored. What is held is messages of nodes that aren't Sentinels.
    pub fn release(&mut self, outbox: &mut Outbox) -> Result<(), ReleaseFault>
        requires { AllByRecursion IsOfOther outbox.old.held }
        ensures releases { Releases result (shown_at self.old) (shown_at self.new) }
        ensures shown { OnOk result (outbox.new.shown ≡ outbox.old.shown ++ outbox.old.held) }
        ensures held { OnOk result (outbox.new.held ≡ []) }
        ensures err { OnErr result (outbox.new ≡ outbox.old) }
    {
        match self {
            Turn::Stored => {
                outbox.show_held();
                *self = Turn::Ready;
                Ok(())
            }
            Turn::Ready => Err(ReleaseFault::Unstored),
            Turn::Pending => Err(ReleaseFault::Unstored),
            Turn::Stopped => Err(ReleaseFault::Unstored),
        }
    }

    /// Stops the node; which text is left makes no difference, since it has none.
    pub fn stop(&mut self, _left: KeptText)
        ensures { Stops _left (shown_at self.old) (shown_at self.new) }
    {
        *self = Turn::Stopped;
    }

    /// Starts the node.
    pub fn start(&mut self)
        ensures { Starts (shown_at self.old) (shown_at self.new) }
    {
        *self = Turn::Ready;
    }
}
