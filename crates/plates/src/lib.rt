// What the far side's phase plates cannot show: the density of a state behind them. Inner: it states and proves, and has no code.
#![tactic(auto)]
