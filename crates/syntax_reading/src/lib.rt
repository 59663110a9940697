//! Reading the parts that both syntaxes of algorithms share, as functions of tokens, and the laws of it.
#![tactic(auto)]
