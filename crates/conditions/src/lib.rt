// Conditions 2 and 3 on the calls, as theorems: any list of calls on a store, from its format on. specs/ holds them.
#![tactic(auto)]
