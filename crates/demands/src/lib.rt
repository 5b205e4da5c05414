// Definitions and theorems alone, in specs/: the three demands, stated over the definitions of the card, and proved.
#![tactic(auto)]
