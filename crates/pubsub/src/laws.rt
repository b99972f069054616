//! What is known of all subscriptions.

ghost use Rattle.std.specs.Prelude.{◌≡◌, ◌≢◌, ℕ, List, [], false, true, Ok};
ghost use Rattle.std.specs.List.{list_any};
ghost use Rattle.ballot_law.specs.declared.commands.Command.{Command};
ghost use Rattle.ballot_law.specs.declared.commands.Command.TheVariants.{Subscribe};
ghost use Rattle.resp2.specs.Commands.{redis_command_of};
ghost use Rattle.resp2.specs.Framing.Frame.{Frame, FrameList, HaveLines, no_frames};
ghost use Rattle.pubsub.specs.Globs.{matches};
ghost use Rattle.pubsub.specs.Listening.{Listening, holds, is_listening};
ghost use Rattle.pubsub.specs.Telling.{told};
ghost use Rattle.pubsub.specs.Answering.{IsSaid, other, said, answer, listening_after};
ghost use Rattle.pubsub.specs.Sound.{IsSound};

/// A connection that begins with nothing, and is answered any values, listens to at most `NAMES_MAX` channels and as
/// many patterns, none of them twice, and none longer than `NAME_BYTES_MAX` bytes.
pub fn law_subscriptions_stay_sound()
    ensures begins { IsSound (record { channels = []; patterns = [] }) }
    ensures stays { (value : Frame) (l : Listening) → IsSound l → IsSound (listening_after l (answer value l)) }
{}

/// Of a channel to which it doesn't listen, and that none of its patterns matches, a connection is told nothing.
pub fn law_nothing_else_is_told()
    ensures { (l : Listening) (channel text : List ℕ) → holds l.channels channel ≡ false → list_any (λ pattern. matches pattern channel) l.patterns ≡ false
        → told l channel text ≡ no_frames }
{}

/// No line of an answer or a message holds a CR or LF, so what is written of them is as many values.
pub fn law_answers_are_values()
    ensures answers { (value : Frame) (l after : Listening) (answers : FrameList) → answer value l ≡ said answers after → HaveLines answers }
    ensures messages { (l : Listening) (channel text : List ℕ) → HaveLines (told l channel text) }
{}

/// A command of a Sentinel's rules is left to them by a connection that doesn't listen, unless it is SUBSCRIBE, and is
/// answered by Pub/Sub where it listens; SUBSCRIBE is answered by Pub/Sub in any case.
pub fn law_own_commands()
    ensures left { (value : Frame) (command : Command) (l : Listening) → is_listening l ≡ false → command ≢ Subscribe
        → redis_command_of value ≡ Ok command → answer value l ≡ other }
    ensures listens { (value : Frame) (command : Command) (l : Listening) → is_listening l ≡ true
        → redis_command_of value ≡ Ok command → IsSaid (answer value l) }
    ensures subscribes { (value : Frame) (l : Listening) → redis_command_of value ≡ Ok Subscribe → IsSaid (answer value l) }
{}
