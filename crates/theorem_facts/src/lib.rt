// Facts of document 01: what it says of its own rules. The statements are in specs/Facts.antt, their proof in proofs/FactsHold.antt; there is no code.
#![tactic(auto)]
