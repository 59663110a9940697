//! The texts of modules: a file in its parts, modules in memory, and a file with a translation put in its place.
#![tactic(auto)]

pub use module_reading::read::read_module;
pub use module_split::split::split;
pub use module_tree::parts::Parts;
pub use module_write::module::{
    Action, Body, Call, Fairness, Item, Module, Opaque, Outside, Region, Way,
};
pub use module_write::write_file::{with_translation, write_module};
pub use module_write::write_units::write_region;
