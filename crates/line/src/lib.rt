// Demand 3: what the host calls known is what the node holds. Statements and proofs only: no function.
// Left to the reader: that specs/World says what can happen on the table; docs/DEMAND3.md goes through it.
#![tactic(auto)]
