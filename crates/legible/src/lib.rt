// The canonical text of a declaration held against the grammar of RFC 8259: definitions in specs/, theorems in proofs/, and no code.
#![tactic(auto)]
