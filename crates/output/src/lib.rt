// The whole output of the program for a text: definitions and laws. No code.
#![tactic(auto)]
