// Each 7 of a declaration stands where a string of its text breaks the rule that it has to keep.
#![tactic(auto)]
