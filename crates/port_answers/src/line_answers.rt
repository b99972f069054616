//! The answers of one line or one word.

ghost use Rattle.std.specs.Prelude.{◌≡◌, ◌∷◌, ◌++◌, decimal};
ghost use Rattle.resp2.specs.Framing.Frame.{spelling, line_end};
ghost use Rattle.port_answers.specs.Room.{bounded};
ghost use Rattle.port_answers.specs.Answers.{no_such_master, ok_line, in_progress, in_tilt, no_good_replica, quorum_reached, no_quorum, id_frame, subscribed, fault_text, command_fault, protocol_error};

use crate::answer_text::AnswerText;
use ballot_law::RunId;
use itoa::Buffer;
use resp2::CommandFault;
use tokens::run_id_text;

/// The text of a refused command's error.
fn fault_text(fault: CommandFault) -> &'static [u8]
    ensures { result.now ≡ fault_text fault }
{
    match fault {
        CommandFault::NotACommand => b"ERR not a command",
        CommandFault::UnknownCommand => b"ERR unknown command",
        CommandFault::WrongArguments => b"ERR wrong number of arguments",
        CommandFault::BadAddress => b"ERR bad address",
        CommandFault::BadEpoch => b"ERR bad epoch",
        CommandFault::BadRunId => b"ERR bad run id",
        CommandFault::UnknownChannel => b"ERR unknown channel",
    }
}

impl AnswerText {
    /// Adds a text, a number, another text, and CR LF.
    #[tactic(auto, using(bounded_list::proofs::Bounded::added_both))]
    pub(crate) fn add_counted(&mut self, before: &[u8], number: u64, behind: &[u8])
        ensures { self.new
            ≡ bounded (self.old ++ (before.now ++ (decimal number ++ (behind.now ++ line_end)))) }
    {
        let mut buffer = Buffer::new();
        self.add(before);
        self.add(buffer.format(number).as_bytes());
        self.add_line(behind);
    }

    /// Adds the answer about a name that no master has. What has no room is cut.
    pub fn add_no_such_master(&mut self)
        ensures { self.new ≡ bounded (self.old ++ spelling no_such_master) }
    {
        self.add_kind(b'-', b"ERR No such master with that name");
    }

    /// Adds the answer to a command that was done. What has no room is cut.
    pub fn add_ok(&mut self)
        ensures { self.new ≡ bounded (self.old ++ spelling ok_line) }
    {
        self.add_kind(b'+', b"OK");
    }

    /// Adds the answer that a failover is under way already. What has no room is cut.
    pub fn add_in_progress(&mut self)
        ensures { self.new ≡ bounded (self.old ++ spelling in_progress) }
    {
        self.add_kind(b'-', b"INPROG Failover already in progress");
    }

    /// Adds the answer that the clock isn't to be trusted, so that no failover begins. What has no room is cut.
    pub fn add_in_tilt(&mut self)
        ensures { self.new ≡ bounded (self.old ++ spelling in_tilt) }
    {
        self.add_kind(b'-', b"ERR Sentinel is in TILT mode, no failover begins");
    }

    /// Adds the answer that no replica can be promoted. What has no room is cut.
    pub fn add_no_good_replica(&mut self)
        ensures { self.new ≡ bounded (self.old ++ spelling no_good_replica) }
    {
        self.add_kind(b'-', b"NOGOODSLAVE No suitable replica to promote");
    }

    /// Adds the answer that so many Sentinels can be reached, which is enough for a failover. What has no room is cut.
    pub fn add_quorum_reached(&mut self, usable: u64)
        ensures { self.new ≡ bounded (self.old ++ spelling (quorum_reached usable)) }
    {
        self.add_counted(
            b"+OK ",
            usable,
            b" usable Sentinels, quorum and majority can be reached",
        );
    }

    /// Adds the answer that so many Sentinels can be reached, which isn't enough for a failover. What has no room is
    /// cut.
    pub fn add_no_quorum(&mut self, usable: u64)
        ensures { self.new ≡ bounded (self.old ++ spelling (no_quorum usable)) }
    {
        self.add_counted(b"-NOQUORUM ", usable, b" usable Sentinels");
    }

    /// Adds a run id as a bulk string, as the answer to SENTINEL MYID. What has no room is cut.
    pub fn add_id(&mut self, id: RunId)
        ensures { self.new ≡ bounded (self.old ++ spelling (id_frame id)) }
    {
        self.add_bulk(run_id_text(id).as_slice());
    }

    /// Adds the answer to `SUBSCRIBE +switch-master`, as Redis words it: the connection listens on one channel now.
    /// What has no room is cut.
    pub fn add_subscribed(&mut self)
        ensures { self.new ≡ bounded (self.old ++ spelling subscribed) }
    {
        self.add(b"*3\r\n$9\r\nsubscribe\r\n$14\r\n+switch-master\r\n:1\r\n");
    }

    /// Adds the answer to a value that is no command of the port. What has no room is cut.
    pub fn add_command_fault(&mut self, fault: CommandFault)
        ensures { self.new ≡ bounded (self.old ++ spelling (command_fault fault)) }
    {
        self.add_kind(b'-', fault_text(fault));
    }

    /// Adds the answer to bytes that are no RESP2. What has no room is cut.
    pub fn add_protocol_error(&mut self)
        ensures { self.new ≡ bounded (self.old ++ spelling protocol_error) }
    {
        self.add_kind(b'-', b"ERR Protocol error");
    }
}
