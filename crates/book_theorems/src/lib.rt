// The theorems about a month book by its days: definitions and proofs alone, in specs/ and proofs/.
#![tactic(auto)]
