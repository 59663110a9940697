//! Reading what forms have in lists: fields, paths, settings, arms, definitions, items by columns; records, and what comes behind `EXCEPT`.
#![tactic(auto)]

pub mod read_arms;
mod read_behind;
pub mod read_bullets;
pub mod read_except;
mod read_field;
pub mod read_locals;
mod read_path;
pub mod read_record;
mod read_setting;
