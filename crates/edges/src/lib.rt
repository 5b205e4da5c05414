// Definitions and one theorem alone, in specs/: the worked examples at the edges, as the definitions answer them.
#![tactic(auto)]
