//! Where the labels of an algorithm are.
#![tactic(auto)]
