//! Texts of TLA+ modules: places, tokens and the rules by which a module is refused.
#![tactic(auto)]

pub mod bytes;
pub mod fault;
mod feeding;
mod kind;
pub mod laws;
pub mod own;
mod part;
pub mod place;
pub mod rule;
mod scan;
pub mod sign;
pub mod token;
pub mod word;

pub use fault::Reading;
pub use feeding::{decided_at, decided_parts};
pub use kind::kind_at;
pub use part::{Class, Part, lexeme_at, outer_at, part_at};
pub use place::{Place, place_of};
pub use rule::{Refusal, Rule, Stop};
pub use scan::{tokens, tokens_as};
pub use sign::Sign;
pub use token::{Kind, Span, Token, Tokens};
pub use word::{PluscalWord, TlaWord};
