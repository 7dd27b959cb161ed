// Whole numbers: definitions in specs/ and their laws in proofs/; there is no code.
#![tactic(auto)]
