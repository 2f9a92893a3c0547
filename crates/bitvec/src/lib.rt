// SMT-LIB's bit-vectors and the RISC-V manual's operations on numbers: definitions (specs/) and laws (proofs/), and no code.
#![tactic(auto)]
