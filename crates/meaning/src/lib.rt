// What the lines of each kind mean: they meet the sort rule, and give rd or memory the manual's value (specs/, proofs/); no code.
#![tactic(auto)]
