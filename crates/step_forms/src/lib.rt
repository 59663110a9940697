//! Laws of the steps of an algorithm whose macro calls are written out: what code makes in one walk is what is written.
#![tactic(auto)]

pub mod laws;
