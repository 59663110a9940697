//! Names and items of a translation, read from tokens, where so many forms may open.
#![tactic(auto)]

pub mod items;
pub mod names;
pub mod opening;
pub mod operands;
mod plain_items;
