// A whole call: what the caller fills is what the callee reads, through the frame machine, and what must be kept is kept. It is a fact on the definitions that the contracts of
// `fill`, `read`, `home`, `view` and the machine's calls cite: specs/ has the claim, proofs/ the theorem, and there is no code.

#![tactic(auto)]
