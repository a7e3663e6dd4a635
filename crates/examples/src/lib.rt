// The paper's worked examples, packets and record. Statements and proofs only.
#![tactic(auto)]
