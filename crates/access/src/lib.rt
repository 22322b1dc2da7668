// What a sheet permits, and its channels: definitions and laws. No code.
#![tactic(auto)]
