// No code: what any run of the calls comes to (demand 3), across sheets and for parties that share a journal, and when the order of edits does not matter.
#![tactic(auto)]
