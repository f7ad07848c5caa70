// No code: that each word of a day file is found where its layout has it, as theorems over the definitions.
#![tactic(auto)]
