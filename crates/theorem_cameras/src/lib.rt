// Theorem of Item 11: two cameras that share 16 quantiser entries do not disturb each other, over any history of calls. The statement is
// in specs/TwoCameras.antt, its proof in proofs/; there is no code.
#![tactic(auto)]
