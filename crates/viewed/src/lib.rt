// The views held against the automaton of the scan: theorems in proofs/, and no code.
#![tactic(auto)]
