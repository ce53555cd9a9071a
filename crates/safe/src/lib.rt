// Theorems only, in specs/ and proofs/: from a fresh table there is always one token, and modes held by two rooms agree.
#![tactic(auto)]
