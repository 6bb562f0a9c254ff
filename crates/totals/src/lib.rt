#![tactic(auto)]

// Totallers: what they mean, their law, and the two encodings of a sum. Definitions and lemmas only.
