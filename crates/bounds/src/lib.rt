// No code: how far the times of words can go, as theorems about the definitions that the contracts cite.
#![tactic(auto)]
