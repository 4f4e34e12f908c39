// What follows from the rules alone. There is no code here: `specs/Promises.antt` states it, and `specs/Bounds.antt` what the code needs besides.
#![tactic(auto)]
