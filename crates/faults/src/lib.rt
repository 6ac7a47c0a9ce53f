// What the whole-store test tells of a store that is not sound, proved: specs/ holds it all.
#![tactic(auto)]
