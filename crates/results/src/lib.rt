// What the results of several calls tell together: definitions and theorems. No code.
#![tactic(auto)]
