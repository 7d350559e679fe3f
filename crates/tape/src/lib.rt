// Theorems about runs of calls, over the definitions that the contracts name; no code.
#![tactic(auto)]
