// Tables with a number for a key, and tables whose entries look at fields of a word: there is no code here, only what they mean and how
// code is held to one.
#![tactic(auto)]
