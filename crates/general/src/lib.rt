// Definitions and laws that know nothing of rivers: see specs/ and proofs/. There is no code to run here.
#![tactic(auto)]
