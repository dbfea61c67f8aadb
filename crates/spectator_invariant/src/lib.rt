// What holds of every spectator session after every run of calls from `new` on, and the proof of it: definitions and laws; no code.
#![tactic(auto)]
