// The theorems about one settled file, or one that is refused: definitions and proofs alone, in specs/ and proofs/.
#![tactic(auto)]
