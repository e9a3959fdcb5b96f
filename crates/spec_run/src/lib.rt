//! What is told of a run of a script: its versions, the saves that failed, and the save that was acknowledged last.
#![tactic(auto)]
