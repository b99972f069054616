//! The addresses of a new group.

ghost use Rattle.std.specs.Prelude.{IfSome, ◌<◌};

use ballot_law::Addr;
use tokens::{canonical_address_of, ip_of, split_at_byte};

/// The port of a Sentinel for which no port is said.
const SENTINEL_PORT: u16 = 26_379;

/// An address that a node can be reached at: any but 0.0.0.0.
fn reachable(addr: Addr) -> Option<Addr>
    ensures { IfSome result (λ it. 0 < it.ip) }
{
    if addr.ip == 0 { None } else { Some(addr) }
}

/// The address that is spelled `<ip>:<port>`: four numbers from 0 to 255 with dots between them, and a port from 1 to
/// 65,535, all without leading zeros. None for any other word, and for 0.0.0.0, at which no node is reached.
pub fn node_address(word: &[u8]) -> Option<Addr>
    ensures { IfSome result (λ it. 0 < it.ip) }
{
    let (ip, port) = split_at_byte(word, b':')?;
    reachable(canonical_address_of(ip, port)?)
}

/// The address of a Sentinel: as that of a node, or an ip alone, for the port 26379.
pub fn sentinel_address(word: &[u8]) -> Option<Addr>
    ensures { IfSome result (λ it. 0 < it.ip) }
{
    match ip_of(word) {
        Some(ip) => reachable(Addr {
            ip,
            port: SENTINEL_PORT,
        }),
        None => node_address(word),
    }
}

/// The first of these addresses that stands there twice.
pub fn shared_address(addrs: &[Addr]) -> Option<Addr> {
    for addr in addrs {
        if addrs.iter().filter(|it| it.is_same(addr)).count() > 1 {
            return Some(*addr);
        }
    }
    None
}
