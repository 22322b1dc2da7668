// What a text says, and the one text of a content. It has definitions and laws, and no code.
#![tactic(auto)]
