// Definitions and laws that every crate cites; no code.
#![tactic(auto)]
