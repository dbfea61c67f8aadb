// The worked bouts P1 to P14 (B-1 to B-15), as one table with a single statement: definitions and laws; no code.
#![tactic(auto)]
