//! A Sentinel serves a stream of commands.

ghost use Rattle.std.specs.Prelude.{◌≡◌, ◌<◌, ◌-◌, ◌^◌, ℕ, List, OnOk, IsErrOf};
ghost use Rattle.std.specs.Io.KnownBytes.{Consumes, Appends, IsAtEnd};
ghost use Rattle.sentinel_core.specs.Serving.Serving.{EndsWith, phase_after};

use crate::sentinel::Sentinel;
use crate::serving::{PortSentinel, ServeFault, Served, serve_stream};
use ballot_law::Input;
use sentinel_conf::ConfStore;
use sentinel_outbox::{Outbox, Phase};
use std::io::{Read, Write};

impl PortSentinel for Sentinel {
    ghost plan = { λ sentinel. sentinel.plan };

    ghost core = { λ sentinel. sentinel.core };

    ghost phase = { λ sentinel. sentinel.phase };

    fn carry_out<S: ConfStore>(
        &mut self,
        input: &Input,
        outbox: &mut Outbox,
        store: &mut S,
    ) -> Result<(), ServeFault> {
        let Ok(_) = self.take(input, outbox) else {
            unreachable!()
        };
        self.is_whole();
        if self.store(store).is_err() {
            return Err(ServeFault::Halted);
        }
        let Ok(()) = self.release(outbox) else {
            unreachable!()
        };
        Ok(())
    }
}

impl Sentinel {
    /// Serves a stream of commands until its end, at one reading of the clock in milliseconds: each command is taken as
    /// an input from `PortAt(0)`, stored, and its released answer written. A value that is no known command is answered
    /// by its error line, and changes nothing. The answers stand in the order of the values, nothing else is written,
    /// and `Served` counts them.
    ///
    /// Where the bytes are no RESP2 value, the values before were answered, `-ERR Protocol error` is written, and the
    /// fault is `Frame`. A value that the end of the stream cuts off gets no answer and is no fault. `Read`, `Write`,
    /// `Halted` and `NoMemory` leave a first part of the answers written, and at most one value more was taken than was
    /// answered; `Halted` comes only if the store counts a failure more, and that value is the one whose store was
    /// refused. The Sentinel has to be ready, and is ready again after any end but `Halted`.
    pub fn serve<R: Read, W: Write, S: ConfStore>(
        &mut self,
        now: u64,
        reader: &mut R,
        writer: &mut W,
        store: &mut S,
    ) -> Result<Served, ServeFault>
        requires ready { self.old.phase ≡ Phase.Ready }
        requires failures { S.failure_count store.old < 2 ^ 64 - 1 }
        // What was written is the answers to what was read; the Sentinel keeps what they leave, and the store holds
        // what they rest on.
        ensures served { (input : List ℕ) × (written : List ℕ)
            × Consumes (R.remaining reader.old) (R.remaining reader.new) input
            × Appends (W.contents writer.old) (W.contents writer.new) written
            × EndsWith self.old.plan now self.old.core (S.held store.old) input written
            result self.new.core (S.held store.new) }
        // A stream that is served was read to its end.
        ensures whole { OnOk result (IsAtEnd (R.remaining reader.new)) }
        // A refused store is a failure of the store.
        ensures halted { IsErrOf result ServeFault.Halted →
            S.failure_count store.old < S.failure_count store.new }
        ensures as_many { OnOk result (S.failure_count store.new ≡ S.failure_count store.old) }
        ensures phase { self.new.phase ≡ phase_after result }
        ensures plan { self.new.plan ≡ self.old.plan }
    {
        serve_stream(self.alloc(), now, self, reader, writer, store)
    }
}
