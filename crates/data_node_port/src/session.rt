//! What a client of a data node asked, and what isn't sent to it yet.

ghost use Rattle.std.specs.Prelude.{◌≡◌, ◌≤◌, ◌++◌, [], length, drop, false, true, OnOk, OnErr};
ghost use Rattle.node_texts.specs.Infos.{IsInfo};
ghost use Rattle.data_node_port.specs.Talks.{fed, protocol_error, Nexts, answered};

use crate::answers::answer_to;
use crate::asks::{Ask, ask_of};
use crate::finding::{Found, find};
use ballot_law::{Info, NoMemory};
use bytes::BytesMut;
use resp2::{Frames, OutText};
use std::alloc::Global;
use std::marker::Model;

/// What a client is told before its connection is closed, where its bytes are no commands.
const BROKEN: &[u8] = b"-ERR Protocol error\r\n";

/// The conversation with one client of a data node. Contracts see the bytes that came and are no whole command yet, the
/// bytes that aren't sent yet, and whether it ends.
#[derive(Drop)]
pub struct Session {
    alloc: Global,
    frames: Frames,
    unsent: BytesMut,
    ends: bool,
}

impl Model for Session {
    ghost use Rattle.std.specs.Prelude.{◌≡◌, [], true};
    ghost use Rattle.resp2.specs.Framing.Stream.{reading, bytes_in};
    ghost use Rattle.data_node_port.specs.Talks.{Talk};

    ghost Value = { Talk };

    ghost view = { λ session. record { held = bytes_in session.frames; unsent = session.unsent.items; ends = session.ends } };

    ghost invariant = { λ session. (session.frames ≡ reading (bytes_in session.frames)) × (session.ends ≡ true → bytes_in session.frames ≡ []) };
}

impl Session {
    /// One to whom no bytes came. No memory is taken.
    pub fn new(alloc: Global) -> Session
        ensures { result ≡ record { held = []; unsent = []; ends = false } }
    {
        Session {
            alloc,
            frames: Frames::new(alloc),
            unsent: BytesMut::new(alloc),
            ends: false,
        }
    }

    /// Whether it ends: nothing more of it is read, and its connection is closed once all is sent.
    pub fn ends(&self) -> bool
        ensures { result ≡ self.now.ends }
    {
        self.ends
    }

    /// The bytes that aren't sent yet.
    pub fn unsent(&self) -> &[u8]
        ensures { result.now ≡ self.now.unsent }
    {
        self.unsent.as_slice()
    }

    /// Takes away the first `n` bytes of what isn't sent yet, which the connection took.
    pub fn sent(&mut self, n: usize)
        requires { n ≤ length self.old.unsent }
        ensures { self.new ≡ record self.old { unsent = drop n self.old.unsent } }
    {
        self.unsent.advance(n);
    }

    /// Adds the next piece of what the client sends, of any length; one that ends drops it. `NoMemory` changes nothing.
    pub fn feed(&mut self, piece: &[u8]) -> Result<(), NoMemory>
        ensures ok { OnOk result (self.new ≡ fed self.old piece.now) }
        ensures err { OnErr result (self.new ≡ self.old) }
    {
        if self.ends {
            return Ok(());
        }
        match self.frames.feed(piece) {
            Ok(()) => Ok(()),
            Err(_) => Err(NoMemory),
        }
    }

    /// Tells the client that its bytes are no commands, and ends.
    fn break_off(&mut self) -> Result<(), NoMemory>
        requires { self.old.held ≡ [] }
        ensures ok { OnOk result (self.new ≡ record { held = []; unsent = self.old.unsent ++ protocol_error; ends = true }) }
        ensures err { OnErr result ((self.new.unsent ≡ self.old.unsent) × (self.new.ends ≡ self.old.ends)) }
    {
        if self.unsent.extend_from_slice(BROKEN).is_err() {
            return Err(NoMemory);
        }
        self.ends = true;
        Ok(())
    }

    /// What is asked next; none where more bytes are needed, and once it ends. Where no command begins with the bytes
    /// held, the client is told so by an error, and it ends.
    ///
    /// `NoMemory`: memory was refused, and commands are lost; what isn't sent stays. The connection is to be closed.
    #[tactic(auto, using(crate::proofs::Talking::asked_next, crate::proofs::Talking::waits_next, crate::proofs::Talking::broken_next, crate::proofs::Talking::ended_next))]
    pub fn next(&mut self) -> Result<Option<Ask>, NoMemory>
        ensures { Nexts self.old result self.new }
    {
        if self.ends {
            return Ok(None);
        }
        match find(self.alloc, &mut self.frames)? {
            Found::Words(words) => Ok(Some(ask_of(self.alloc, words.as_slice())?)),
            Found::Waits => Ok(None),
            Found::Broken => {
                self.break_off()?;
                Ok(None)
            }
        }
    }

    /// Puts out the answer of a node that shows this to what was asked. After QUIT it ends.
    ///
    /// `NoMemory`: nothing was put out; the connection is to be closed.
    pub fn answer(&mut self, ask: &Ask, info: &Info) -> Result<(), NoMemory>
        requires { IsInfo info.now }
        ensures ok { OnOk result (self.new ≡ answered self.old ask.now info.now) }
        ensures err { OnErr result (self.new ≡ self.old) }
    {
        let mut text = OutText::new(self.alloc);
        answer_to(self.alloc, &mut text, ask, info)?;
        if self.unsent.extend_from_slice(text.as_slice()).is_err() {
            return Err(NoMemory);
        }
        if let Ask::Quit = ask {
            self.frames = Frames::new(self.alloc);
            self.ends = true;
        }
        Ok(())
    }
}
