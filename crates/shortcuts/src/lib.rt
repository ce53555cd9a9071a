// Theorems only, in specs/ and proofs/: what each of the shortcuts that look right leads to.
#![tactic(auto)]
