// What the two pages, the cut matrix and the density, say of one state.
#![tactic(auto)]
