// What the states of a step's walk mean, and that a walk from the root makes the product's diagram: laws only.
#![tactic(auto)]
