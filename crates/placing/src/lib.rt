// Placements, and the answers that they give (docs/RULES.md, "Placements and answers"): definitions and their laws. Nothing here runs.

#![tactic(auto)]
