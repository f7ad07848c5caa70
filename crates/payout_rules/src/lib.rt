// The rules of paying out under 8088 and their laws: definitions and proofs alone, in specs/ and proofs/.
#![tactic(auto)]
