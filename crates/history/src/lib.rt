// Demand 3 over all runs: what the history of accepted calls names is what the card holds. The look-backs stand in specs/, the
// promises in proofs/Promises.antt, proofs/Turns.antt and proofs/OneShot.antt. It has no code of its own.
#![tactic(auto)]
