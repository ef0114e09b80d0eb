// Arguments that are added at the end of a signature move nothing: theorems alone, about the definitions that the contracts of the planners, of
// the listing and of `fill` cite.

#![tactic(auto)]
