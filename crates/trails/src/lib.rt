// What the trail of a walk shows, as theorems over the walk. specs/ holds them.
#![tactic(auto)]
