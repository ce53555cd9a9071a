// Theorems only, in specs/ and proofs/: the measure that every delivery and every hand-back lowers, and how large it can be.
#![tactic(auto)]
