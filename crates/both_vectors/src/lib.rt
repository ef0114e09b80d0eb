// The worked cases that document 01 wants proved. They are facts on definitions alone: specs/ has the table and proofs/ the one
// fact, and there is no code.

#![tactic(auto)]
