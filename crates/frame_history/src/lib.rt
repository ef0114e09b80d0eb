// Demand 3 over lists of the machine's own calls: what every list of enters, writes and leaves from an accepted start keeps. It is a fact on definitions alone: specs/ has what a
// list of calls does and what is kept, proofs/ the theorem, and there is no code.

#![tactic(auto)]
