// What an ask depends on, as theorems over the walk. specs/ holds them.
#![tactic(auto)]
