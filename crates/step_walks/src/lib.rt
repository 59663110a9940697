//! What a step and a start do statement by statement, with each choice as it is taken.
#![tactic(auto)]
