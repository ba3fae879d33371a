//! The parts of a task, as they stand in an envelope.
use moments::Moment;
use serde_json::Value;

/// The settings of a task.
#[derive(Clone, Copy)]
pub(crate) struct Settings {
    pub(crate) retries: u32,
    pub(crate) eta: Option<Moment>,
    pub(crate) expires: Option<Moment>,
}

/// What the content of a message of version 2 holds.
#[derive(Drop)]
pub(crate) struct Call<'a> {
    pub(crate) args: &'a Value,
    pub(crate) kwargs: &'a Value,
    pub(crate) embed: &'a Value,
}

/// A task as it stands in an envelope.
#[derive(Drop)]
pub(crate) struct Found<'a> {
    pub(crate) version: u8,
    pub(crate) name: &'a str,
    pub(crate) id: &'a str,
    pub(crate) args: &'a Value,
    pub(crate) kwargs: &'a Value,
    pub(crate) settings: Settings,
}
