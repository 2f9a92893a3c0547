// Many calls in one are a list of calls that demand 3 speaks of, and so is what the bench gives for a flow after it (specs/, proofs/); no code.
#![tactic(auto)]
