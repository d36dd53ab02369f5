// Theorem of Item 9: resuming from a stored state gives what reading from the top gives. The statement is in specs/GoingOn.antt, its
// proof in proofs/; there is no code.
#![tactic(auto)]
