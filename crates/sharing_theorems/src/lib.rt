// The theorems about the sharing call: definitions and proofs alone, in specs/ and proofs/.
#![tactic(auto)]
