//! What stands after the calls of a run: the last document, what can be undone and redone of it, and the pictures of
//! tiles that are kept. A group of edits, its undo and its redo are changes of these pictures.
#![tactic(auto)]
