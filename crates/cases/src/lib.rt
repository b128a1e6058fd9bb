// Document 01's cases, proved over what the crates below promise; nothing runs.
#![tactic(auto)]
