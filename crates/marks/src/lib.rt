// The marked examples of document 01: one list, and one claim over it. The list is in specs/Marks.antt, the claim in proofs/Claim.antt; there is no code.
#![tactic(auto)]
