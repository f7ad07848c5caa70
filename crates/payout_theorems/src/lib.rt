// The theorems about what is paid out: definitions and proofs alone, in specs/ and proofs/.
#![tactic(auto)]
