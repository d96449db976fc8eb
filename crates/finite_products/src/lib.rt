// Products of allowed components are finite: there is no code here, only proofs/. Inner.
#![tactic(auto)]
