// Inner: which number and place refuse a change of a plan, as rows of tests. Theorems alone; nothing is called.
#![tactic(auto)]
