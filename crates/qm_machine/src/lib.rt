//! The lines of the program, their replies as text, and the machine that answers them.
#![tactic(auto)]
