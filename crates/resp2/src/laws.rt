//! The law of asks: what a Sentinel writes to ask another one is read as that question.
ghost use Rattle.std.specs.Prelude.{◌≡◌, ◌≤◌, ◌++◌, ℕ, List, Option, Ok};
ghost use Rattle.ballot_law.specs.declared.addresses.Addr.{Addr};
ghost use Rattle.ballot_law.specs.declared.addresses.RunId.{RunId};
ghost use Rattle.ballot_law.specs.declared.cards.TheConstants.{MAX_EPOCH};
ghost use Rattle.ballot_law.specs.declared.commands.Command.TheVariants.{IsMasterDownByAddr};
ghost use Rattle.ballot_law.specs.Hellos.{IsAddr};
ghost use Rattle.resp2.specs.Commands.{IsCandidate, ask_frame, command_of};
ghost use Rattle.resp2.specs.Framing.Frame.{spelling};
ghost use Rattle.resp2.specs.Framing.Reading.{frame_at};

/// What an ask spells is read as its frame, and its frame as that command.
#[tactic(auto, using(crate::proofs::Asks::ask_again, crate::proofs::Asks::ask_bytes_again))]
pub fn law_ask_is_read_again()
    ensures frame { (addr : Addr) (epoch : ℕ) (candidate : Option RunId) (rest : List ℕ)
        → IsAddr addr → epoch ≤ MAX_EPOCH → IsCandidate candidate
        → frame_at (spelling (ask_frame addr epoch candidate) ++ rest)
        ≡ Ok (ask_frame addr epoch candidate, rest) }
    ensures command { (addr : Addr) (epoch : ℕ) (candidate : Option RunId)
        → IsAddr addr → epoch ≤ MAX_EPOCH → IsCandidate candidate
        → command_of (ask_frame addr epoch candidate)
        ≡ Ok (IsMasterDownByAddr addr epoch candidate) }
{}
