// Versions of the endpoint that nobody could use, and that its public statements rule each of them out: definitions and laws; no code.
#![tactic(auto)]
