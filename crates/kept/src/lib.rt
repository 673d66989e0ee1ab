// The rows of a declaration keep the rules of well-formedness.
#![tactic(auto)]
