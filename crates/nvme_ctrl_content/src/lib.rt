//! What a controller keeps of its log, in no memory yet: by region its window, its queue and its counts, by completion
//! region what is ready, and what is in hand (`specs/Content.antt`), when that holds at a log (`specs/Standing.antt`), and that
//! each step of a controller keeps it. There is no code here.
#![tactic(auto)]
