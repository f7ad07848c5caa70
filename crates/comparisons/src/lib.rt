// The theorems about two files compared: definitions and proofs alone, in specs/ and proofs/.
#![tactic(auto)]
