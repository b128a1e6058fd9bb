// A function's needs, answered in a row: there is no code here, only how a proof answers many of them at once.
#![tactic(auto)]
