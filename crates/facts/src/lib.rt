// What well-formedness says, as facts that a proof can use: all of it is in specs/.
#![tactic(auto)]
