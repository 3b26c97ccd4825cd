// Reduced diagrams: what they give, that one exists for every table of values, and that it is the only one: laws only.
#![tactic(auto)]
