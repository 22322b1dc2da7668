// The theory of flow, over any relation of channels. It has definitions and laws, and no code.
#![tactic(auto)]
