#![tactic(auto)]

// Clauses written as words and as text, and read back. Definitions and lemmas only.
