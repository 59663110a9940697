//! What reading an algorithm's tokens answers, in either syntax.
#![tactic(auto)]
