//! What operators give, and what any function gives of its arguments: definitions, which need nothing of the code.
#![tactic(auto)]
