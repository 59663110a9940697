//! A module's text in the parts in which it is read back: its title, and its tokens before, in and after its translation.
#![tactic(auto)]

mod inside;
pub mod parts;
