// An edit of the head in words is the toggle of the head in the rules: theorems on lists, in specs/.
#![tactic(auto)]
