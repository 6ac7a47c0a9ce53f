// Good states and what keeps them so: theorems on lists, in specs/.
#![tactic(auto)]
