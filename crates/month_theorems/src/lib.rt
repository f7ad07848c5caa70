// The theorems about a settled month: definitions and proofs alone, in specs/ and proofs/.
#![tactic(auto)]
