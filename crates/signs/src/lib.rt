// Signs of products and sums of floats: laws alone.
#![tactic(auto)]
