// Theorem of Item 10: a region of a picture has the samples of the whole picture. The statement is in specs/Agreement.antt, its proof in
// proofs/; there is no code.
#![tactic(auto)]
