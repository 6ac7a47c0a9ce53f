// The promises, as theorems over the rules: written stores, sequences of calls, the plain set, the pages allowed. specs/ holds them.
#![tactic(auto)]
