// No code: what the check of a day file promises about acceptance and the first broken word, as theorems over its definitions.
#![tactic(auto)]
