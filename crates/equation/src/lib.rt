// How far the step sheet's figure can lie from the unrounded equation. Definitions and a theorem: no code runs.
#![tactic(auto)]
