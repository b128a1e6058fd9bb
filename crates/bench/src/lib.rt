// The library's calls over many inputs, as C calls for `./bench`. Each answers a sum of what its calls gave, which is held
// to the other side's.
#![tactic(auto)]

mod asking;
mod sum;
mod writing;
