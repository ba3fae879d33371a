//! Beat files: what periodic tasks are sent, and when (Celery manual, "Periodic Tasks").
//!
//! The first line is `celery-beat 1`. Each other line is an entry: `every <seconds> <name> <queue> <task> <json args>`, or
//! `cron <minute> <hour> <day> <month> <weekday> <name> <queue> <task> <json args>`. What a file spells is defined in
//! `specs/BeatFiles.antt`.
#![tactic(auto)]

mod entry;
mod fault;
mod lines;
mod reading;
mod schedule;

pub use entry::BeatTask;
pub use schedule::Schedule;
