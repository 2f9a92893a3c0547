// What the answers of the bench mean: specs/Laws; no code.
#![tactic(auto)]
