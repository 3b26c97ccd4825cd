// That a list followed by its inverse is found equal to the empty list, unless it is refused: laws only.
#![tactic(auto)]
