// A viewing box as its owner calls it, alone and with the endpoint that sends to it, and that it shows what was played: definitions and laws about the public functions
// themselves; no code.
#![tactic(auto)]
