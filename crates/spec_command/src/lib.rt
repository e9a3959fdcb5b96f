//! The arguments of the command line, the commands that they ask for, and how a command ends.
#![tactic(auto)]
