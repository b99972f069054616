//! The fields of an answer to INFO.

ghost use Rattle.std.specs.Prelude.{◌≡◌, ◌++◌, ◌∷◌, ◌-◌, ◌^◌, [], MatchOption, None};
ghost use Rattle.node_texts.specs.declared.info_fields.TheConstants.{COUNT_MAX};
ghost use Rattle.node_texts.specs.Infos.{after_label, role_name, is_up, count, count_or_minus};

use crate::lines::without_return;
use ballot_law::{DataRole, RunId};
use tokens::{are_digits, ip_of, number_of, port_of, run_id_of, split_line};

/// The greatest number of an answer to INFO: 2^63 - 1.
const COUNT_MAX: u64 = 9_223_372_036_854_775_807;

/// That greatest number. The grammar and its readers cite it by name.
pub fn law_counts()
    ensures { COUNT_MAX ≡ 2 ^ 63 - 1 }
{}

/// What a field's last line says: none where there is no such line, and none within it where its value is bad.
pub(crate) type Given<T> = Option<Option<T>>;

/// What a node says of itself.
#[derive(Clone, Copy)]
pub(crate) struct OwnFields {
    pub(crate) id: Given<RunId>,
    pub(crate) role: Given<DataRole>,
}

/// What a replica says of its master and of the link to it.
#[derive(Clone, Copy)]
pub(crate) struct LinkFields {
    pub(crate) host: Given<u32>,
    pub(crate) port: Given<u16>,
    pub(crate) up: Given<bool>,
    /// For how many seconds the link has been down.
    pub(crate) down_s: Given<u64>,
}

/// What a replica says of itself.
#[derive(Clone, Copy)]
pub(crate) struct ReplicaFields {
    pub(crate) priority: Given<u64>,
    pub(crate) offset: Given<u64>,
}

/// The eight fields that are read.
#[derive(Clone, Copy)]
pub(crate) struct Fields {
    pub(crate) own: OwnFields,
    pub(crate) link: LinkFields,
    pub(crate) replica: ReplicaFields,
}

/// What stands behind the label, where the line begins with it.
pub(crate) fn after_label<'a>(line: &'a [u8], label: &[u8]) -> Option<&'a [u8]>
    ensures { MatchOption result (after_label label.now line.now ≡ None)
        (λ value. line.now ≡ label.now ++ value.now) }
{
    line.strip_prefix(label)
}

/// The role of this name.
pub(crate) fn role_of_name(value: &[u8]) -> Option<DataRole>
    ensures { result ≡ role_name value.now }
{
    if value == b"master".as_slice() {
        Some(DataRole::Master)
    } else if value == b"slave".as_slice() {
        Some(DataRole::Replica)
    } else {
        None
    }
}

/// Whether the link is up.
fn is_up(value: &[u8]) -> Option<bool>
    ensures { result ≡ is_up value.now }
{
    if value == b"up".as_slice() {
        Some(true)
    } else if value == b"down".as_slice() {
        Some(false)
    } else {
        None
    }
}

/// A number from 0 to 2^63 - 1.
fn count_of(value: &[u8]) -> Option<u64>
    ensures { result ≡ count value.now }
{
    number_of(value, 0, COUNT_MAX)
}

/// A number from 0 to 2^63 - 1, or 0 for a number with a minus.
fn count_or_minus(value: &[u8]) -> Option<u64>
    ensures { result ≡ count_or_minus value.now }
{
    match value {
        [b'-', digits @ ..] => { if are_digits(digits) { Some(0) } else { None } }
        _ => count_of(value),
    }
}

impl OwnFields {
    ghost use Rattle.node_texts.specs.Infos.{own_fields, newest_own};

    /// The fields of no line.
    fn missing() -> OwnFields
        ensures { result ≡ own_fields [] }
    {
        OwnFields {
            id: None,
            role: None,
        }
    }

    /// Reads one line.
    fn read_line(&mut self, line: &[u8])
        ensures { self.new ≡ newest_own self.old (own_fields (line.now ∷ [])) }
    {
        if let Some(value) = after_label(line, b"run_id:") {
            self.id = Some(run_id_of(value));
        } else if let Some(value) = after_label(line, b"role:") {
            self.role = Some(role_of_name(value));
        }
    }
}

impl LinkFields {
    ghost use Rattle.node_texts.specs.Infos.{link_fields, newest_link};

    /// The fields of no line.
    fn missing() -> LinkFields
        ensures { result ≡ link_fields [] }
    {
        LinkFields {
            host: None,
            port: None,
            up: None,
            down_s: None,
        }
    }

    /// Reads one line.
    fn read_line(&mut self, line: &[u8])
        ensures { self.new ≡ newest_link self.old (link_fields (line.now ∷ [])) }
    {
        if let Some(value) = after_label(line, b"master_host:") {
            self.host = Some(ip_of(value));
        } else if let Some(value) = after_label(line, b"master_port:") {
            self.port = Some(port_of(value));
        } else if let Some(value) = after_label(line, b"master_link_status:") {
            self.up = Some(is_up(value));
        } else if let Some(value) = after_label(line, b"master_link_down_since_seconds:") {
            self.down_s = Some(count_or_minus(value));
        }
    }
}

impl ReplicaFields {
    ghost use Rattle.node_texts.specs.Infos.{replica_fields, newest_replica};

    /// The fields of no line.
    fn missing() -> ReplicaFields
        ensures { result ≡ replica_fields [] }
    {
        ReplicaFields {
            priority: None,
            offset: None,
        }
    }

    /// Reads one line.
    fn read_line(&mut self, line: &[u8])
        ensures { self.new ≡ newest_replica self.old (replica_fields (line.now ∷ [])) }
    {
        if let Some(value) = after_label(line, b"slave_priority:") {
            self.priority = Some(count_of(value));
        } else if let Some(value) = after_label(line, b"slave_repl_offset:") {
            self.offset = Some(count_or_minus(value));
        }
    }
}

impl Fields {
    ghost use Rattle.std.specs.Prelude.{map};
    ghost use Rattle.ballot_law.specs.Cuts.{lines};
    ghost use Rattle.node_texts.specs.Lines.{without_return};
    ghost use Rattle.node_texts.specs.Infos.{fields_of, newest_fields};

    /// The fields of no line.
    fn missing() -> Fields
        ensures { result ≡ fields_of [] }
    {
        Fields {
            own: OwnFields::missing(),
            link: LinkFields::missing(),
            replica: ReplicaFields::missing(),
        }
    }

    /// Reads one line. The first byte tells most lines that no field of ours begins.
    fn read_line(&mut self, line: &[u8])
        ensures { self.new ≡ newest_fields self.old (fields_of (line.now ∷ [])) }
    {
        let Some(first) = line.first() else {
            return;
        };
        if *first == b'r' {
            self.own.read_line(line);
        } else if *first == b'm' {
            self.link.read_line(line);
        } else if *first == b's' {
            self.replica.read_line(line);
        }
    }

    /// The fields of a text.
    pub(crate) fn of(text: &[u8]) -> Fields
        ensures { result ≡ fields_of (map without_return (lines text.now)) }
    {
        let mut fields = Fields::missing();
        let mut rest = text;
        while !rest.is_empty() {
            let (line, behind) = split_line(rest);
            fields.read_line(without_return(line));
            rest = behind;
        }
        fields
    }
}
