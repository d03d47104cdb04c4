//! What is said on links to daemons, over every run: lemmas for the laws of sessions.
//! What acceptors say on links to daemons, over every run: lemmas for the law of answers.
#![tactic(auto)]
