// What holds of every endpoint after every run of calls from `new` on, and the proof of it: definitions and laws; no code.
#![tactic(auto)]
