//! Revoked tasks: the ids that a worker is told not to run (Celery manual, "Revoking tasks"), in order of arrival.
#![tactic(auto)]

mod revokes;

pub use revokes::{REVOKE_LIMIT, REVOKE_SECONDS, Revokes};
