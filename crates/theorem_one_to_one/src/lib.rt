// Theorem of demand 3: tight blocks and sets of colour lines correspond one to one. The statement is in specs/Correspondence.antt, its
// proof in proofs/; there is no code.
#![tactic(auto)]
