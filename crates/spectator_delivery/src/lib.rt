// What a viewing box shows over a whole run, against what the sending end accepted for sending, and the proof of it: definitions and laws; no code.
#![tactic(auto)]
