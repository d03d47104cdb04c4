//! What each key of a run is for, and what that says of all that is sealed or signed under it: lemmas for the laws over every run.
//! Parts of frames by number: lemmas for the laws over every run.
//! What each row and each command of a login keeps of what is known of a run: lemmas for the laws over every run.
#![tactic(auto)]
