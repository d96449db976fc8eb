// Floats and complex numbers that are alike but for the sign of a zero: laws alone. Inner: it states and proves, and has no code.
#![tactic(auto)]
