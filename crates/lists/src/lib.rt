// List words and laws that several layers share; no code and no knowledge of the format.
#![tactic(auto)]
