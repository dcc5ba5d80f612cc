// What holds of every card that a fresh card and calls have left. The statement stands in specs/, its proof for every run in
// proofs/. It has no code of its own.
#![tactic(auto)]
