//! A list with room for a limit, made beforehand: adding takes no memory, and what has no room is cut.
//!
//! `BoundedList<T, LIMIT>` is meant as the one field of a crate's own type, which gives it a name and its parts:
//!
//! ```text
//! pub struct AnswerText { bytes: BoundedList<u8, ANSWER_MAX> }
//!
//! impl Model for AnswerText {
//!     ghost Value = { List ℕ };
//!     ghost view = { λ text. text.bytes };
//! }
//! ```
//!
//! Contracts see the list. `bounded LIMIT` is what the room holds of a list, and each call that adds ends as
//! `bounded LIMIT (self.old ++ ..)`. A crate that writes its limit often gives that a short name, for which all facts
//! hold as well: `abbrev pub bounded : List ℕ → List ℕ`, `bounded text = lists.bounded ANSWER_MAX text`, with
//! `use Rattle.bounded_list.specs.BoundedLists as lists`.
//!
//! The facts stand in `proofs::Bounded` and take the limit first. `bounded_more` and `added_both` join two parts,
//! `two_adds` two calls that add, `bounded_all` says that what has room is whole. A function that adds twice is proved
//! by `#[tactic(auto, using(crate::proofs::Bounded::added_both))]`.
#![tactic(auto)]

mod lists;

pub use lists::BoundedList;
