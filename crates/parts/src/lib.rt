// A day file by its parts: definitions and laws alone, in specs/ and proofs/.
#![tactic(auto)]
