// The rules of settling a month book and their laws: definitions and proofs alone, in specs/ and proofs/.
#![tactic(auto)]
