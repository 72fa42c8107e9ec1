// What the script program answers to a rush of calls: specs/ and proofs/ alone.
#![tactic(auto)]
