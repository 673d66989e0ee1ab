// The fuel of the reader of declarations never runs out on scanned text.
#![tactic(auto)]
