// The reference model of the table calls, and demand 3 on lists of calls: specs/ and proofs/ alone.
#![tactic(auto)]
