// No code: the figures T1 to T12 of document 01 as one theorem over the definitions that the contracts cite.
#![tactic(auto)]
