// Flight line seven (docs/RULES.md, "Flight line seven"): one proved table of facts about the definitions. Nothing here runs.

#![tactic(auto)]
