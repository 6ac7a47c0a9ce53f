// What stands in a store that is laid out in slots, proved: specs/ holds it all.
#![tactic(auto)]
