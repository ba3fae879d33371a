//! What a worker goes about at its desk and its book: which acts are a whole course, and which only begin one.
//!
//! Rounds of a pool's thread and turns of a consumer are courses: what comes next in one is a function of what was
//! answered before. A call that follows a course says so in one clause, whole where it is Ok, else up to where it stopped.
#![tactic(auto)]
