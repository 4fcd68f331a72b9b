// The listing of two files as a definition, with its theorems: specs/ and proofs/. It has no code; `lines` puts its text, `lister` makes its steps.
#![tactic(auto)]
