// What a pile of receipts that lists of calls wrote holds of contradictions: specs/ and proofs/ alone.
#![tactic(auto)]
