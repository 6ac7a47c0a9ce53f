// The walk finds: on the writing of a good tree, ask answers whether the topmost entry of the pair is normal. specs/ holds the theorems.
#![tactic(auto)]
