// Document 01's elimination as definitions and laws: no code. `lu` factors by it, `adding` and `removing` change factors by it.
#![tactic(auto)]
