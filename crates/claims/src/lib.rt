// The claims about the store, over the definitions that the contracts of the other crates cite. There is no code: specs/ has the
// statements, proofs/ their proofs.
#![tactic(auto)]
