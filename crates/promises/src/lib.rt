// What the calls promise together (docs/PROMISES.md): theorems over their contracts. Nothing here runs.

#![tactic(auto)]
