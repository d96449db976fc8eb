// What the downward sort of values is: a permutation of them that falls in the total order.
#![tactic(auto)]
