//! A message that a worker took, with its task.
ghost use Rattle.std.specs.Prelude.{◌≡◌, Ok, pos};
ghost use Rattle.serde_json.specs.View.{view as data_of};
ghost use Rattle.task_message.specs.Shown.{task_view};
ghost use Rattle.task_message.specs.Tasks.{task_of};
ghost use Rattle.pool_book.specs.Deliveries.{parcel_message, parcel_number, parcel_task};

use envelope::Envelope;
use std::marker::Model;
use task_message::Task;

/// A message with the task that it carries, under the number of its delivery. Contracts see it as the number, the task
/// and the message's tree.
#[derive(Drop)]
pub struct Delivery {
    number: u64,
    task: Task,
    envelope: Envelope,
}

impl Model for Delivery {
    ghost use Rattle.std.specs.Prelude.{ℕ, ◌≡◌, Ok};
    ghost use Rattle.std.specs.Coded.{codes};
    ghost use Rattle.serde_json.specs.View.{view as data_of};
    ghost use Rattle.serde_json.specs.contracts.value.Value as json_value;
    ghost use Rattle.task_message.specs.contracts.task.Task as task_row;
    ghost use Rattle.task_message.specs.Shown.{task_view};
    ghost use Rattle.task_message.specs.Tasks.{task_of};
    ghost use Rattle.pool_book.specs.Deliveries.{Parcel};

    ghost Value = { Parcel };

    ghost coded = { Prim.hlevel (codes, json_value.the_row.coded, task_row.the_row.coded) };

    ghost view = { λ d. (d.number, (d.task, d.envelope)) };

    ghost invariant = { λ d. task_of (data_of d.envelope) ≡ Ok (task_view d.task) };
}

impl Delivery {
    /// A delivery of a message whose task was read.
    pub fn new(number: u64, task: Task, envelope: Envelope) -> Delivery
        requires { task_of (data_of envelope) ≡ Ok (task_view task) }
        ensures { result ≡ (number, (task, envelope)) }
    {
        Delivery {
            number,
            task,
            envelope,
        }
    }

    /// The number of the delivery.
    pub fn number(&self) -> u64
        ensures { result ≡ parcel_number self.now }
    {
        self.number
    }

    /// The task.
    pub fn task(&self) -> &Task
        ensures { result.now ≡ parcel_task self.now }
    {
        &self.task
    }

    /// The message.
    pub fn envelope(&self) -> &Envelope
        ensures message { result.now ≡ parcel_message self.now }
        // The task is the one that it carries.
        ensures read { task_of (data_of result.now) ≡ Ok (task_view (parcel_task self.now)) }
    {
        let _task = &self.task;
        &self.envelope
    }
}
