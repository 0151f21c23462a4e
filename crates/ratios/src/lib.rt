// Ratios of whole numbers, and that their operations see the fraction alone. Definitions and theorems: no code runs.
#![tactic(auto)]
