// A version of the endpoint's public functions, on values of the code's types, and what it is that a version meets their contracts: definitions and laws; no code.
#![tactic(auto)]
