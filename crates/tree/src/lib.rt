// What a JSON text says as a tree, held against the views: definitions in specs/, theorems in proofs/, and no code.
#![tactic(auto)]
