//! What the lines of a report show against the laws of a group.

use std::alloc::{AllocError, Global};

/// What a line of a report says.
#[derive(Clone, Copy, PartialEq, Eq)]
enum Entry<'a> {
    /// A Sentinel was elected.
    Elected {
        master: &'a str,
        epoch: u64,
    },
    /// A Sentinel showed a configuration.
    Said {
        sentinel: &'a str,
        master: &'a str,
        epoch: u64,
        ip: &'a str,
        port: &'a str,
    },
}

/// What a line says: `elected <master> <epoch> <runid>` or `said <runid> <master> <epoch> <ip> <port>`; none where it
/// is no such line.
fn entry_of(line: &str) -> Option<Entry<'_>> {
    let mut words = line.split(' ');
    match words.next()? {
        "elected" => {
            let master = words.next()?;
            let epoch = words.next()?.parse().ok()?;
            Some(Entry::Elected { master, epoch })
        }
        "said" => {
            let sentinel = words.next()?;
            let master = words.next()?;
            let epoch = words.next()?.parse().ok()?;
            let ip = words.next()?;
            let port = words.next()?;
            Some(Entry::Said {
                sentinel,
                master,
                epoch,
                ip,
                port,
            })
        }
        _ => None,
    }
}

/// How often reports show what no run may bring.
#[derive(Clone, Copy, Default, PartialEq, Eq)]
pub(crate) struct Breaches {
    /// Elections of a master in an epoch that had one.
    pub(crate) elections: u64,
    /// Configurations of a master whose epoch was shown with another address.
    pub(crate) addresses: u64,
    /// Configurations of a master that a Sentinel showed after one of a greater epoch.
    pub(crate) fallen: u64,
    /// Lines that tell neither.
    pub(crate) unread: u64,
}

impl Breaches {
    /// Counts what a line shows after an earlier one of its report.
    fn compare(&mut self, earlier: Entry<'_>, later: Entry<'_>) {
        match (earlier, later) {
            (
                Entry::Elected { master, epoch },
                Entry::Elected {
                    master: same,
                    epoch: again,
                },
            ) => {
                if master == same && epoch == again {
                    self.elections = self.elections.saturating_add(1);
                }
            }
            (
                Entry::Said {
                    sentinel,
                    master,
                    epoch,
                    ip,
                    port,
                },
                Entry::Said {
                    sentinel: other,
                    master: same,
                    epoch: again,
                    ip: place,
                    port: number,
                },
            ) => {
                if master == same && epoch == again && (ip != place || port != number) {
                    self.addresses = self.addresses.saturating_add(1);
                }
                if master == same && sentinel == other && again < epoch {
                    self.fallen = self.fallen.saturating_add(1);
                }
            }
            _ => {}
        }
    }

    /// Counts what the lines of a report show, each after all earlier ones.
    pub(crate) fn count(&mut self, alloc: Global, lines: &str) -> Result<(), AllocError> {
        let mut before: Vec<Entry<'_>> = Vec::new(alloc);
        for line in lines.lines() {
            let Some(later) = entry_of(line) else {
                self.unread = self.unread.saturating_add(1);
                continue;
            };
            for earlier in before.as_slice() {
                self.compare(*earlier, later);
            }
            before.push(later)?;
        }
        Ok(())
    }
}
