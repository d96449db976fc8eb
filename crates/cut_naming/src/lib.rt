// The two lists that name a cut: one side in another order, and the other side. Inner: it states and proves, and has no code.
#![tactic(auto)]
