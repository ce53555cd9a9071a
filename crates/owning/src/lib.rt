// Theorems only, in specs/ and proofs/: what each room owns, and how its modes and those under way to it fit together.
#![tactic(auto)]
