//! What is known of every courtesy.

ghost use Rattle.std.specs.Prelude.{◌≡◌, ◌↔◌, ◌⊎◌, ◌≤◌, ◌++◌, ℕ, List, [], Bool, true, false, length, Ok, Err};
ghost use Rattle.std.specs.List.{list_any};
ghost use Rattle.ballot_law.specs.declared.commands.Command.{Command};
ghost use Rattle.ballot_law.specs.Rosters.{Roster};
ghost use Rattle.resp2.specs.declared.command.CommandFault.TheVariants.{UnknownCommand, WrongArguments};
ghost use Rattle.resp2.specs.Commands.{redis_command_of};
ghost use Rattle.resp2.specs.declared.framing.fault.Unread.TheVariants.{NeedsMore};
ghost use Rattle.resp2.specs.Framing.Frame.{Frame, spelling, HasLines, IsFrame};
ghost use Rattle.resp2.specs.Framing.Reading.{Stays};
ghost use Rattle.client_commands.specs.declared.courtesies.Courtesy.TheVariants.{Said};
ghost use Rattle.client_commands.specs.Lines.{value_at, IsLineOf};
ghost use Rattle.client_commands.specs.Courtesies.{ClientInfo, left, said, silent, asks_nothing, is_stranger, is_password, words_of, courtesy, asker_after, kind_of};

/// A command of the Sentinel's rules is left to them, where the client gave the password that is wanted. So is each
/// value that they refuse for another reason than that they don't know the command or its number of words, but for an
/// array without items. A command changes nothing of the connection.
pub fn law_own_values_are_left()
    ensures own { (roster : Roster) (asker : ClientInfo) (value : Frame) (command : Command) → is_stranger asker ≡ false
        → redis_command_of value ≡ Ok command → courtesy roster asker value ≡ left }
    ensures same { (asker : ClientInfo) (value : Frame) (command : Command) → redis_command_of value ≡ Ok command
        → asker_after asker value ≡ asker }
    ensures refused { (roster : Roster) (asker : ClientInfo) (value : Frame) → is_stranger asker ≡ false
        → (asks_nothing value ≡ true) ⊎ ((courtesy roster asker value ≡ left)
        ⊎ ((redis_command_of value ≡ Err UnknownCommand) ⊎ (redis_command_of value ≡ Err WrongArguments))) }
{}

/// Where a password is wanted that the client didn't give, each value is answered by a courtesy, so none reaches the
/// Sentinel; and a value after which the client has given it holds the whole password as a word.
pub fn law_strangers_reach_nothing()
    ensures answered { (roster : Roster) (asker : ClientInfo) (value : Frame) → is_stranger asker ≡ true → kind_of (courtesy roster asker value) ≡ Said }
    ensures admitted { (asker : ClientInfo) (value : Frame) → is_stranger asker ≡ true → is_stranger (asker_after asker value) ≡ false
        → list_any (is_password asker.password) (words_of value) ≡ true }
{}

/// No line of an answer holds a CR or LF, so what is written of it is one value: one answer.
pub fn law_answers_are_values()
    ensures { (roster : Roster) (asker : ClientInfo) (value answer : Frame) → courtesy roster asker value ≡ said answer → HasLines answer }
{}

/// An array without items has no answer, and each other value has one.
pub fn law_nothing_is_answered_to_nothing()
    ensures { (roster : Roster) (asker : ClientInfo) (value : Frame) → (courtesy roster asker value ≡ silent) ↔ (asks_nothing value ≡ true) }
{}

/// The first value of a stream is one that a session of RESP2 may be handed, and stands there in its spelling or as a
/// line with its words. In its spelling it is always read, so a stream without lines has the values that it has in
/// RESP2. More bytes are needed only while at most 65,536 are held.
pub fn law_values_are_spelled_or_lines()
    ensures read { (bytes rest : List ℕ) (value : Frame) → value_at bytes ≡ Ok (value, rest)
        → ((bytes ≡ spelling value ++ rest) ⊎ IsLineOf bytes value rest) × IsFrame value }
    ensures spelled { (value : Frame) (rest : List ℕ) → IsFrame value → value_at (spelling value ++ rest) ≡ Ok (value, rest) }
    ensures waits { (bytes : List ℕ) → value_at bytes ≡ Err NeedsMore → length bytes ≤ 65536 }
{}

/// A value or a fault that was read stays when more bytes come, whether it is a line or not.
pub fn law_lines_stay()
    ensures { (piece bytes : List ℕ) → Stays piece (value_at bytes) (value_at (bytes ++ piece)) }
{}
