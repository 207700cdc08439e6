// Theorems only: what a change of loudness by a power of two, or of polarity, leaves as it is.
#![tactic(auto)]
