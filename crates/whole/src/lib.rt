// The elimination over the whole panel, as the slices show it: definitions in specs/, and in proofs/ the law that it is
// the model's run of the head with the tail rows beside it. No code.
#![tactic(auto)]
