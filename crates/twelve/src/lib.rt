// The twelve worked examples of document 01, proved of the rules: all of it is in specs/.
#![tactic(auto)]
