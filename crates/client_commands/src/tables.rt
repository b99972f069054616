//! What COMMAND and its subcommands answer.

ghost use Rattle.std.specs.Prelude.{◌≡◌, ◌++◌, ◌∷◌, ◌+◌, ◌*◌, ◌||◌, List, [], pos, OnOk, IfOk, decimal, length, map, codes};
ghost use Rattle.std.specs.List.{list_any};
ghost use Rattle.resp2.specs.Framing.Frame as frames;
ghost use Rattle.resp2.specs.Framing.Frame.{spelling, spellings, line_end};
ghost use Rattle.ballot_law.specs.Words.{lower};
ghost use Rattle.client_commands.specs.Pieces.{Part, parts_in, all_in, all_bytes_of, all_parts_of};
ghost use Rattle.client_commands.specs.Rows.{families, subs_of, all_commands, name, arity, flags, categories, tips};
ghost use Rattle.client_commands.specs.Descriptions.{fields, pairs_of};
ghost use Rattle.client_commands.specs.Tables.{named, marks, texts, row_with, sub_rows, row, all_rows, table, row_or_null, rows_named, command_info, description, sub_descriptions, family_description, described_with, described, found_by, command_docs, names_of, is_category, is_mark_of, in_category, matching, filtered_by, command_list};

use crate::classes::Class;
use crate::clients::say_none;
use crate::descriptions::{pieces_about, size_of};
use crate::pieces::{TablePiece, add_header, add_pieces};
use crate::refusals::{is_called, say};
use crate::rows::{KnownCommand, all_commands, families};
use crate::told_subcommands::lowered;
use ballot_law::{NoMemory, Text};
use pubsub::is_match;
use resp2::{OutText, push_bulk, push_int};
use std::alloc::Global;

const SYNTAX_ERROR: &[u8] = b"-ERR syntax error\r\n";

/// Adds pieces and the header of an array of as many items.
fn add_array(out: &mut OutText, pieces: &[TablePiece]) -> Result<(), NoMemory>
    ensures { OnOk result (out.new ≡ out.old ++ ((42 ∷ (decimal (length pieces.now) ++ line_end))
        ++ all_bytes_of (all_in pieces.now))) }
{
    add_header(out, pieces.len())?;
    add_pieces(out, pieces)
}

/// Adds the flags of a class.
fn add_flags(out: &mut OutText, class: Class) -> Result<(), NoMemory>
    ensures { OnOk result (out.new ≡ out.old ++ spelling (marks (flags class))) }
{
    add_array(out, class.flags())
}

/// Adds its categories of access.
fn add_categories(out: &mut OutText, class: Class) -> Result<(), NoMemory>
    ensures { OnOk result (out.new ≡ out.old ++ spelling (marks (categories class))) }
{
    add_array(out, class.categories())
}

/// Adds its tips.
fn add_tips(out: &mut OutText, class: Class) -> Result<(), NoMemory>
    ensures { OnOk result (out.new ≡ out.old ++ spelling (texts (tips class))) }
{
    add_array(out, class.tips())
}

/// Adds that it has no keys.
fn add_no_keys(out: &mut OutText) -> Result<(), NoMemory>
    ensures { OnOk result (out.new ≡ out.old ++ (spelling (frames.int (pos 0)) ++ (spelling (frames.int (pos 0))
        ++ spelling (frames.int (pos 0))))) }
{
    push_int(out, 0)?;
    push_int(out, 0)?;
    push_int(out, 0)
}

/// Adds an array of no items.
fn add_none(out: &mut OutText) -> Result<(), NoMemory>
    ensures { OnOk result (out.new ≡ out.old ++ spelling (frames.items frames.no_frames)) }
{
    out.add(b"*0\r\n")
}

/// Adds what is told of a class.
fn add_class(out: &mut OutText, class: Class) -> Result<(), NoMemory>
    ensures { OnOk result (out.new ≡ out.old ++ (spelling (marks (flags class))
        ++ ((spelling (frames.int (pos 0)) ++ (spelling (frames.int (pos 0)) ++ spelling (frames.int (pos 0))))
        ++ (spelling (marks (categories class)) ++ (spelling (texts (tips class)) ++ spelling (frames.items frames.no_frames)))))) }
{
    add_flags(out, class)?;
    add_no_keys(out)?;
    add_categories(out, class)?;
    add_tips(out, class)?;
    add_none(out)
}

/// Adds the header of a row, and the name of its command and how many words that has.
fn add_name(out: &mut OutText, command: KnownCommand) -> Result<(), NoMemory>
    ensures { OnOk result (out.new ≡ out.old ++ ((42 ∷ (decimal 10 ++ line_end))
        ++ (spelling (frames.bulk (name command)) ++ spelling (frames.int (arity command))))) }
{
    add_header(out, 10)?;
    push_bulk(out, command.name())?;
    push_int(out, command.arity())
}

/// Adds the row of a subcommand.
fn add_sub_row(out: &mut OutText, sub: KnownCommand) -> Result<(), NoMemory>
    ensures { OnOk result (out.new ≡ out.old ++ spelling (row_with sub frames.no_frames)) }
{
    add_name(out, sub)?;
    add_class(out, sub.class())?;
    add_none(out)
}

/// Adds the rows of subcommands.
fn add_sub_rows(out: &mut OutText, subs: &[KnownCommand]) -> Result<(), NoMemory>
    ensures { OnOk result (out.new ≡ out.old ++ spellings (sub_rows subs.now)) }
{
    let mut rest = subs;
    while let [sub, more @ ..] = rest {
        add_sub_row(out, *sub)?;
        rest = more;
    }
    Ok(())
}

/// The bytes of what `add_subs` adds.
fn add_sub_bytes(out: &mut OutText, subs: &[KnownCommand]) -> Result<(), NoMemory>
    ensures { OnOk result (out.new ≡ out.old ++ ((42 ∷ (decimal (length subs.now) ++ line_end))
        ++ spellings (sub_rows subs.now))) }
{
    add_header(out, subs.len())?;
    add_sub_rows(out, subs)
}

/// Adds the array of these.
fn add_subs(out: &mut OutText, subs: &[KnownCommand]) -> Result<(), NoMemory>
    ensures { OnOk result (out.new ≡ out.old ++ spelling (frames.items (sub_rows subs.now))) }
{
    add_sub_bytes(out, subs)
}

/// Adds a row.
fn add_row(out: &mut OutText, command: KnownCommand) -> Result<(), NoMemory>
    ensures { OnOk result (out.new ≡ out.old ++ spelling (row command)) }
{
    add_name(out, command)?;
    add_class(out, command.class())?;
    add_subs(out, command.subs())
}

/// Adds rows.
fn add_rows(out: &mut OutText, commands: &[KnownCommand]) -> Result<(), NoMemory>
    ensures { OnOk result (out.new ≡ out.old ++ spellings (all_rows commands.now)) }
{
    let mut rest = commands;
    while let [next, more @ ..] = rest {
        add_row(out, *next)?;
        rest = more;
    }
    Ok(())
}

/// The bytes of what `say_rows` tells.
fn say_row_bytes(out: &mut OutText, commands: &[KnownCommand]) -> Result<(), NoMemory>
    ensures { OnOk result (out.new ≡ (42 ∷ (decimal (length commands.now) ++ line_end))
        ++ spellings (all_rows commands.now)) }
{
    out.clear();
    add_header(out, commands.len())?;
    add_rows(out, commands)
}

/// The answer is these rows.
fn say_rows(out: &mut OutText, commands: &[KnownCommand]) -> Result<(), NoMemory>
    ensures { OnOk result (out.new ≡ spelling (frames.items (all_rows commands.now))) }
{
    say_row_bytes(out, commands)
}

/// The answer to COMMAND.
pub(crate) fn say_table(out: &mut OutText) -> Result<(), NoMemory>
    ensures { OnOk result (out.new ≡ spelling table) }
{
    say_rows(out, families())
}

/// The command or subcommand that is called so.
fn named(word: &[u8]) -> Option<KnownCommand>
    ensures { result ≡ named all_commands word.now }
{
    let mut rest = all_commands();
    while let [command, more @ ..] = rest {
        if is_called(command.name(), word) {
            return Some(*command);
        }
        rest = more;
    }
    None
}

/// Adds the row that a word names, or null where it names none.
fn add_row_named(out: &mut OutText, word: &[u8]) -> Result<(), NoMemory>
    ensures { OnOk result (out.new ≡ out.old ++ spelling (row_or_null (named all_commands word.now))) }
{
    match named(word) {
        Some(command) => add_row(out, command),
        None => out.add(b"$-1\r\n"),
    }
}

/// Adds what each word names.
fn add_rows_named(out: &mut OutText, words: &[Text]) -> Result<(), NoMemory>
    ensures { OnOk result (out.new ≡ out.old ++ spellings (rows_named words.now)) }
{
    let mut rest = words;
    while let [word, more @ ..] = rest {
        add_row_named(out, word.as_slice())?;
        rest = more;
    }
    Ok(())
}

/// The bytes of what `say_rows_named` tells.
fn say_rows_named_bytes(out: &mut OutText, words: &[Text]) -> Result<(), NoMemory>
    ensures { OnOk result (out.new ≡ (42 ∷ (decimal (length words.now) ++ line_end))
        ++ spellings (rows_named words.now)) }
{
    out.clear();
    add_header(out, words.len())?;
    add_rows_named(out, words)
}

/// The answer is the rows that the words name.
fn say_rows_named(out: &mut OutText, words: &[Text]) -> Result<(), NoMemory>
    ensures { OnOk result (out.new ≡ spelling (frames.items (rows_named words.now))) }
{
    say_rows_named_bytes(out, words)
}

/// The answer to COMMAND INFO with these words.
#[tactic(auto, using(crate::proofs::TableBytes::info_named))]
pub(crate) fn command_info(words: &[Text], out: &mut OutText) -> Result<(), NoMemory>
    ensures { OnOk result (out.new ≡ spelling (command_info words.now)) }
{
    match words {
        [] => say_table(out),
        [_, ..] => say_rows_named(out, words),
    }
}

/// Adds the header of a description that has so many more names and values than are said of the command by itself, and
/// these.
fn add_fields(out: &mut OutText, command: KnownCommand, more: u8) -> Result<(), NoMemory>
    ensures { OnOk result (out.new ≡ out.old ++ ((42 ∷ (decimal (length (fields command) * 2 + more)
        ++ line_end)) ++ all_bytes_of (all_parts_of (pairs_of (fields command))))) }
{
    add_header(out, size_of(command) + more as usize)?;
    add_pieces(out, pieces_about(command))
}

/// Adds the description of a command without subcommands.
fn add_description(out: &mut OutText, command: KnownCommand) -> Result<(), NoMemory>
    ensures { OnOk result (out.new ≡ out.old ++ spelling (description command [])) }
{
    add_fields(out, command, 0)
}

/// Adds the name of a subcommand and its description.
fn add_sub_description(out: &mut OutText, sub: KnownCommand) -> Result<(), NoMemory>
    ensures { OnOk result (out.new ≡ out.old ++ (spelling (frames.bulk (name sub)) ++ spelling (description sub []))) }
{
    push_bulk(out, sub.name())?;
    add_description(out, sub)
}

/// Adds those of subcommands.
fn add_sub_descriptions(out: &mut OutText, subs: &[KnownCommand]) -> Result<(), NoMemory>
    ensures { OnOk result (out.new ≡ out.old ++ spellings (pairs_of (sub_descriptions subs.now))) }
{
    let mut rest = subs;
    while let [sub, more @ ..] = rest {
        add_sub_description(out, *sub)?;
        rest = more;
    }
    Ok(())
}

/// The bytes of what `add_family_description` adds.
fn add_family_bytes(
    out: &mut OutText,
    command: KnownCommand,
    subs: &[KnownCommand],
) -> Result<(), NoMemory>
    ensures { OnOk result (out.new ≡ out.old ++ (((42 ∷ (decimal (length (fields command) * 2 + 2) ++ line_end))
        ++ all_bytes_of (all_parts_of (pairs_of (fields command))))
        ++ (spelling (frames.bulk (codes "subcommands")) ++ ((42 ∷ (decimal (length subs.now * 2) ++ line_end)) ++ spellings (pairs_of (sub_descriptions subs.now)))))) }
{
    add_fields(out, command, 2)?;
    push_bulk(out, b"subcommands")?;
    add_header(out, subs.len() * 2)?;
    add_sub_descriptions(out, subs)
}

/// Adds the description of a command with these subcommands.
fn add_family_description(
    out: &mut OutText,
    command: KnownCommand,
    subs: &[KnownCommand],
) -> Result<(), NoMemory>
    ensures { OnOk result (out.new ≡ out.old ++ spelling (family_description command subs.now)) }
{
    add_family_bytes(out, command, subs)
}

/// Adds the description of a command with these subcommands, where there are any.
#[tactic(auto, using(crate::proofs::TableBytes::family_described))]
fn add_described(
    out: &mut OutText,
    command: KnownCommand,
    subs: &[KnownCommand],
) -> Result<(), NoMemory>
    ensures { OnOk result (out.new ≡ out.old ++ spelling (described_with command subs.now)) }
{
    match subs {
        [] => add_description(out, command),
        [_, ..] => add_family_description(out, command, subs),
    }
}

/// Adds the name of a command and its description.
fn add_docs(out: &mut OutText, command: KnownCommand) -> Result<(), NoMemory>
    ensures { OnOk result (out.new ≡ out.old ++ (spelling (frames.bulk (name command))
        ++ spelling (described_with command (subs_of command)))) }
{
    push_bulk(out, command.name())?;
    add_described(out, command, command.subs())
}

/// Adds those of commands.
fn add_all_docs(out: &mut OutText, commands: &[KnownCommand]) -> Result<(), NoMemory>
    ensures { OnOk result (out.new ≡ out.old ++ spellings (pairs_of (described commands.now))) }
{
    let mut rest = commands;
    while let [next, more @ ..] = rest {
        add_docs(out, *next)?;
        rest = more;
    }
    Ok(())
}

/// The bytes of what `say_docs` tells.
fn say_docs_bytes(out: &mut OutText, commands: &[KnownCommand]) -> Result<(), NoMemory>
    ensures { OnOk result (out.new ≡ (42 ∷ (decimal (length commands.now * 2) ++ line_end))
        ++ spellings (pairs_of (described commands.now))) }
{
    out.clear();
    add_header(out, commands.len() * 2)?;
    add_all_docs(out, commands)
}

/// The answer is the names and descriptions of these.
fn say_docs(out: &mut OutText, commands: &[KnownCommand]) -> Result<(), NoMemory>
    ensures { OnOk result (out.new ≡ spelling (frames.items (pairs_of (described commands.now)))) }
{
    say_docs_bytes(out, commands)
}

/// Those that the words name.
fn found_by(alloc: Global, words: &[Text]) -> Result<Vec<KnownCommand>, NoMemory>
    ensures { IfOk result (λ found. found.items ≡ found_by words.now) }
{
    let mut found = Vec::new(alloc);
    let mut rest = words;
    while let [word, more @ ..] = rest {
        if let Some(command) = named(word.as_slice()) {
            found.push(command)?;
        }
        rest = more;
    }
    Ok(found)
}

/// The answer is the names and descriptions of those that the words name.
fn say_docs_named(alloc: Global, words: &[Text], out: &mut OutText) -> Result<(), NoMemory>
    ensures { OnOk result (out.new ≡ spelling (frames.items (pairs_of (described (found_by words.now))))) }
{
    let found = found_by(alloc, words)?;
    say_docs(out, found.as_slice())
}

/// The answer to COMMAND DOCS with these words.
#[tactic(auto, using(crate::proofs::TableBytes::docs_named))]
pub(crate) fn command_docs(alloc: Global, words: &[Text], out: &mut OutText) -> Result<(), NoMemory>
    ensures { OnOk result (out.new ≡ spelling (command_docs words.now)) }
{
    match words {
        [] => say_docs(out, families()),
        [_, ..] => say_docs_named(alloc, words, out),
    }
}

/// Adds the names of these.
fn add_names(out: &mut OutText, commands: &[KnownCommand]) -> Result<(), NoMemory>
    ensures { OnOk result (out.new ≡ out.old
        ++ spellings (frames.frames_of (map frames.bulk (names_of commands.now)))) }
{
    let mut rest = commands;
    while let [next, more @ ..] = rest {
        push_bulk(out, next.name())?;
        rest = more;
    }
    Ok(())
}

/// The bytes of what `say_names` tells.
fn say_name_bytes(out: &mut OutText, commands: &[KnownCommand]) -> Result<(), NoMemory>
    ensures { OnOk result (out.new ≡ (42 ∷ (decimal (length commands.now) ++ line_end))
        ++ spellings (frames.frames_of (map frames.bulk (names_of commands.now)))) }
{
    out.clear();
    add_header(out, commands.len())?;
    add_names(out, commands)
}

/// The answer is the names of these.
fn say_names(out: &mut OutText, commands: &[KnownCommand]) -> Result<(), NoMemory>
    ensures { OnOk result (out.new ≡ spelling (texts (names_of commands.now))) }
{
    say_name_bytes(out, commands)
}

/// Whether this is the category of access that is called so, without its `@`.
fn is_category(word: &[u8], category: &[u8]) -> bool
    ensures { result ≡ is_category word.now category.now }
{
    match category.split_first() {
        Some((_, label)) => is_called(label, word),
        None => false,
    }
}

/// Whether the piece is the mark of that category.
fn is_its_mark(word: &[u8], piece: TablePiece) -> bool
    ensures { (rest : List Part) → list_any (is_mark_of word.now) (parts_in piece ++ rest)
        ≡ (result || list_any (is_mark_of word.now) rest) }
{
    match piece {
        TablePiece::Mark(mark) => is_category(word, mark),
        TablePiece::Text(_) => false,
        TablePiece::Field(_, _) => false,
        TablePiece::Change(_, _) => false,
        TablePiece::Many(_, _) => false,
        TablePiece::Argument(_, _, _) => false,
    }
}

/// Whether one of the pieces is.
fn have_mark(word: &[u8], pieces: &[TablePiece]) -> bool
    ensures { result ≡ list_any (is_mark_of word.now) (all_in pieces.now) }
{
    let mut rest = pieces;
    while let [piece, more @ ..] = rest {
        if is_its_mark(word, *piece) {
            return true;
        }
        rest = more;
    }
    false
}

/// Whether the commands of a class are in the category of access that is called so.
#[tactic(auto, using(crate::proofs::TableBytes::marks_any))]
fn is_in_category(word: &[u8], class: Class) -> bool
    ensures { result ≡ list_any (is_category word.now) (categories class) }
{
    have_mark(word, class.categories())
}

/// Those that are in the category of access that is called so.
fn in_category(alloc: Global, word: &[u8]) -> Result<Vec<KnownCommand>, NoMemory>
    ensures { IfOk result (λ some. some.items ≡ in_category word.now all_commands) }
{
    let mut some = Vec::new(alloc);
    let mut rest = all_commands();
    while let [command, more @ ..] = rest {
        if is_in_category(word, command.class()) {
            some.push(*command)?;
        }
        rest = more;
    }
    Ok(some)
}

/// Those whose names match the pattern.
fn matching(alloc: Global, pattern: &[u8]) -> Result<Vec<KnownCommand>, NoMemory>
    ensures { IfOk result (λ some. some.items ≡ matching pattern.now all_commands) }
{
    let mut some = Vec::new(alloc);
    let mut rest = all_commands();
    while let [command, more @ ..] = rest {
        if is_match(pattern, command.name()) {
            some.push(*command)?;
        }
        rest = more;
    }
    Ok(some)
}

/// The answer is the names of those in a category of access.
fn say_category(alloc: Global, word: &[u8], out: &mut OutText) -> Result<(), NoMemory>
    ensures { OnOk result (out.new ≡ spelling (texts (names_of (in_category word.now all_commands)))) }
{
    let some = in_category(alloc, word)?;
    say_names(out, some.as_slice())
}

/// The answer is the names that match the pattern.
fn say_pattern(alloc: Global, pattern: &[u8], out: &mut OutText) -> Result<(), NoMemory>
    ensures { OnOk result (out.new ≡ spelling (texts (names_of (matching pattern.now all_commands)))) }
{
    let some = matching(alloc, pattern)?;
    say_names(out, some.as_slice())
}

/// The answer is the names that match the word, whatever the case of its letters.
fn say_matching(alloc: Global, word: &[u8], out: &mut OutText) -> Result<(), NoMemory>
    ensures { OnOk result (out.new ≡ spelling (texts (names_of (matching (lower word.now) all_commands)))) }
{
    let pattern = lowered(alloc, word)?;
    say_pattern(alloc, pattern.as_slice(), out)
}

/// The answer to COMMAND LIST FILTERBY with this filter and this word.
fn filtered_by(alloc: Global, filter: &[u8], word: &[u8], out: &mut OutText) -> Result<(), NoMemory>
    ensures { OnOk result (out.new ≡ spelling (filtered_by filter.now word.now)) }
{
    if is_called(b"module", filter) {
        return say_none(out);
    }
    if is_called(b"aclcat", filter) {
        return say_category(alloc, word, out);
    }
    if is_called(b"pattern", filter) {
        return say_matching(alloc, word, out);
    }
    say(out, SYNTAX_ERROR)
}

/// The answer to COMMAND LIST with this option, this filter and this word.
fn filtered(
    alloc: Global,
    option: &[u8],
    filter: &[u8],
    word: &[u8],
    out: &mut OutText,
) -> Result<(), NoMemory>
    ensures { OnOk result (out.new ≡ spelling (command_list (option.now ∷ filter.now ∷ word.now ∷ []))) }
{
    if is_called(b"filterby", option) {
        return filtered_by(alloc, filter, word, out);
    }
    say(out, SYNTAX_ERROR)
}

/// The answer to COMMAND LIST with these words.
#[tactic(auto, using(crate::proofs::TableBytes::not_filtered))]
pub(crate) fn command_list(alloc: Global, words: &[Text], out: &mut OutText) -> Result<(), NoMemory>
    ensures { OnOk result (out.new ≡ spelling (command_list words.now)) }
{
    match words {
        [] => say_names(out, all_commands()),
        [option, filter, word] => filtered(
            alloc,
            option.as_slice(),
            filter.as_slice(),
            word.as_slice(),
            out,
        ),
        _ => say(out, SYNTAX_ERROR),
    }
}
