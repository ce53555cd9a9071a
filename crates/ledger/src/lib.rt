// Theorems only, in specs/ and proofs/: what every loan is worth, as the lender and as the borrower have it, with what is on the wires.
#![tactic(auto)]
