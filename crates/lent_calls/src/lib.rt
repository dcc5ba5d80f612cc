// The one proof by hand of a call on a struct that is lent by `&mut`: proofs/Walk.antt.
// No function stands here: the doors of `toolkit` are such calls.
#![tactic(auto)]
