//! What a module has outside its algorithm and the translation, read unit by unit into memory.
#![tactic(auto)]

pub mod body;
mod declared;
pub mod definition;
pub mod depth;
mod found;
mod fresh;
pub mod front;
pub mod kept;
pub mod modules;
mod names;
pub mod outside;
pub mod passed;
mod sight;
pub mod standard;
pub mod unit;
