// An accepted step keeps well-formedness: all of it is in specs/.
#![tactic(auto)]
