// Two endpoints as their owners call them, and that inputs arrive in order: definitions and laws about the public functions themselves; no code.
#![tactic(auto)]
