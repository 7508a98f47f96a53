//! What is wrong in a network file, in plain sentences, and where it is.
//!
//! [`explain`] writes for a text the line that `check` prints, and after it a sentence with what to change and the line and column of
//! what is at fault; or, of a network that is accepted, what it has. The layer above knows exactly what is written (`specs/Explanation`):
//! the sentence of each refusal (`specs/Sentences`, `specs/Causes`), what a refusal names (`specs/Offenders`, `specs/ShortPlaces`), where
//! in the text the value of a path is (`specs/Parts`, `specs/Place`), and how many switches packets pass (`specs/Lengths`). Of a text that
//! is no JSON it knows only that the place is in the text.
//!
//! Of a use of a channel or a variable that is refused the places in the processes are given (`specs/Uses`, `specs/Offences`,
//! `specs/Misuses`). Of each use that is not lawful there are two: that is a law ([`offences_are_found`]).
#![tactic(auto)]

mod cause;
mod declared_names;
mod detail;
mod explanation;
mod found;
mod laws;
mod lengths;
mod limits;
mod misuse;
mod nearest;
mod offence;
mod offender;
mod parts;
mod place;
mod place_of_use;
mod quoting;
mod search;
mod sentence;
mod short_places;
mod slot;
mod text_sentence;
mod walk;
mod wanted;

pub use explanation::{Explanation, explain, run_explain};
pub use laws::offences_are_found;
pub use offender::Offender;
pub use quoting::Quoting;
pub use slot::Slot;
