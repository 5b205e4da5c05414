// The sixteen reasons for refusal: definitions and laws of them, with nothing to run.
#![tactic(auto)]
