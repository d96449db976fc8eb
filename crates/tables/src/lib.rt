// Inner: lists whose values are given one by one, and a list filled with them from the front. Definitions and laws alone.
#![tactic(auto)]
