//! The concrete machine as definitions: its opening, visible steps and edges, its run, live words,
//! and the text of a run.
#![tactic(auto)]
