// The paper's rules as definitions on lists, and the bench table proved of them: specs/ holds them all.
#![tactic(auto)]
