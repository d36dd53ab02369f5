// Document 01, Marked for proof: the cases a to l. The table is in specs/Cases.antt, its proof in proofs/CasesHold.antt; there is no code.
#![tactic(auto)]
