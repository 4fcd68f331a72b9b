// Younger rights can't touch this month's elder ones. Definitions and proofs alone; there is no code.
#![tactic(auto)]
