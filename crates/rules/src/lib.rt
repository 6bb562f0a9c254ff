#![tactic(auto)]

// Rules on grids, their law, and the promise about counting that follows: mathematics alone.
