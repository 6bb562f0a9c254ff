#![tactic(auto)]

// What kinds of part mean, and that they keep their law. Definitions and lemmas only.
