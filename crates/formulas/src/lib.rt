#![tactic(auto)]

// Formulas in clauses: what they mean, and how their variables are numbered. Definitions and lemmas only.
