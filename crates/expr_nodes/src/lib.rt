//! What the reader of expressions is made from: tokens as it sees them, what it goes by of what was read, and the nodes of each form.
#![tactic(auto)]

pub mod cursor;
pub mod depth;
pub mod element;
pub mod gather;
pub mod make;
pub mod quote;
pub mod shape;
pub mod spot;
pub mod view;
