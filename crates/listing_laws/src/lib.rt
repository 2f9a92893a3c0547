// Theorems about the listing (specs/, proved in proofs/): its own start is one that the start's check accepts, so that demand 3 holds from it, and an
// instruction is refused with its own number or because the list is full; no code.
#![tactic(auto)]
