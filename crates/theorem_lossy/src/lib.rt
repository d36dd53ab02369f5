// Theorem of Item 5: what the lossy writer writes reads back within the base. The statement is in specs/LossyBlocks.antt, its proof in
// proofs/; there is no code.
#![tactic(auto)]
