// Which reply a public call gives, and that it is the only one, as theorems over the calls' promises. specs/ holds them.
#![tactic(auto)]
