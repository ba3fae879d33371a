//! Schedules run: lines are read one after the other, and clients' commands go to a store.
//!
//! `World` takes the lines after the header, `run_schedule` a whole schedule. What a line leads to is defined by
//! `schedule_model`.
#![tactic(auto)]

mod book;
mod fault;
mod run;
mod world;

pub use fault::LineFault;
pub use run::{RunFault, ScheduleRun, run_schedule, run_whole};
pub use world::World;
