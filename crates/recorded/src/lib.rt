// A recording made by the host over demand 3's line walks to the host's own record. Statements and proofs only: no function.
// Promised: for every course of events, with no exchange open, the walk through what the recorder captured ends with the host's session.
// Left to the reader: that specs/Trace says what a recorder captures of such a course.
#![tactic(auto)]
