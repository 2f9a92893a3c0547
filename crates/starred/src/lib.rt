// Document 01's starred bench cases, and two of document 02, R-4: one table (specs/Cases), one theorem (proofs/Cases); no code.
#![tactic(auto)]
