// Demand 3 over the exported calls: what every list of enters, writes and leaves keeps in the words and the memory that a caller in C lends. It is a fact on definitions
// alone: specs/ has what a list of exported calls does and the claim, proofs/ the theorem, and there is no code.

#![tactic(auto)]
