// Two endpoints that hand messages to each other, and that inputs arrive in order: definitions and laws; no code.
#![tactic(auto)]
