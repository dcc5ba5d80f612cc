// Where the card's calls and the promises over all runs meet: the statements stand in specs/, the theorems in proofs/.
// It has no code of its own.
#![tactic(auto)]
