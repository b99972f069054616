//! Which messages can be written.

ghost use Rattle.std.specs.Prelude.{IsTrue};
ghost use Rattle.ballot_law.specs.Hellos.{IsAddr, IsHello, IsRunId};
ghost use Rattle.ballot_law.specs.Names.{IsName};
ghost use Rattle.node_texts.specs.Messages.MessageTexts.{IsWritable};
ghost use Rattle.resp2.specs.Framing.Frame.{IsLine};

use crate::{infos, roles};
use ballot_law::{Addr, Body, Hello, MAX_EPOCH, Name, RunId};

/// Whether no CR or LF is in the text.
pub(crate) fn is_line(text: &[u8]) -> bool
    ensures { IsTrue result → IsLine text.now }
{
    text.iter().all(|byte| *byte != b'\r' && *byte != b'\n')
}

/// Whether an address has a port.
fn has_port(addr: Addr) -> bool
    ensures { IsTrue result → IsAddr addr }
{
    addr.port > 0
}

/// Whether a name is one: each is.
fn is_name(name: Name) -> bool
    ensures { IsTrue result → IsName name }
{
    Name::from_slice(name.as_slice()).is_some()
}

/// Whether these are the two numbers of a run id: all are.
fn is_run_id(id: RunId) -> bool
    ensures { IsTrue result → IsRunId id }
{
    id.hi <= u128::MAX && id.lo <= u32::MAX
}

/// Whether the numbers of a hello are such that it can be written.
fn can_write_hello(hello: &Hello) -> bool
    ensures { IsTrue result → IsHello hello.now }
{
    has_port(hello.addr)
        && has_port(hello.card.addr)
        && is_name(hello.master)
        && is_run_id(hello.id)
        && hello.current <= MAX_EPOCH
        && hello.card.epoch <= MAX_EPOCH
}

/// Whether a message that says this can be written.
pub(crate) fn can_write(body: &Body) -> bool
    ensures { IsTrue result → IsWritable body.now }
{
    match body {
        Body::Answer { epoch, .. } => *epoch <= MAX_EPOCH,
        Body::PingText { text, .. } => is_line(text.as_slice()),
        Body::InfoText(info) => infos::can_be_written(info),
        Body::Publish(hello) => can_write_hello(hello),
        Body::HelloText(hello) => can_write_hello(hello),
        Body::RoleText(role) => roles::can_be_written(role),
        _ => true,
    }
}
