// The claim: any list of calls that can change a board is accounted for by the tally. Definitions and proofs alone; there is no code.
#![tactic(auto)]
