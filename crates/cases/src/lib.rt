// The worked examples that document 01 marks: theorems alone.
#![tactic(auto)]
