// The three demands on a set, as theorems over what its calls promise.
#![tactic(auto)]
