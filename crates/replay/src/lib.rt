//! Schedules run and reports written, as the definitions of schedules say.
#![tactic(auto)]

mod entry_text;
mod history_report;
mod legend;
mod note_text;
mod place_text;
mod report_lines;

pub use history_report::{report, report_ran, totals_ran};
pub use legend::{Celery, Lettered};
pub use report_lines::report_of;
pub use schedule_world::{LineFault, RunFault, ScheduleRun, World, run_schedule, run_whole};
