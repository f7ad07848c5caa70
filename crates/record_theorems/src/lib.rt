// The theorems about the record of failing days, and about settlement with it: definitions and proofs alone, in specs/ and proofs/.
#![tactic(auto)]
