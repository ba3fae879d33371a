//! Sending a task again.
ghost use Rattle.std.specs.Prelude.{◌≡◌, ◌+◌, ◌<◌, ◌^◌, IfOk, Ok, OnOk, true};
ghost use Rattle.serde_json.specs.View.{view as data_of};
ghost use Rattle.envelope.specs.Envelopes.{parts_in};
ghost use Rattle.moments.specs.CivilTimes.{is_within_years};
ghost use Rattle.task_message.specs.Again.{again_of, again_tree, body_again, if_short, with_body};
ghost use Rattle.task_again.specs.Whole.{IsBody, IsOfLength, IsWhole, refused};
ghost use Rattle.task_message.specs.Reading.{GivesTask};
ghost use Rattle.task_message.specs.Shown.{task_view};
ghost use Rattle.task_message.specs.Tasks.{task_of};

use crate::body::new_body;
use crate::change::{Retry, put_text, renew_headers_in, renew_properties_in};
use envelope::{Envelope, EnvelopeFault, Tag, of_tree};
use serde_json::Value;
use std::alloc::{AllocError, Global};
use task_message::{Moment, Task, TaskFault};

/// The envelope of a task that is sent again as a retry: `retries` is one higher, `eta` is another moment, and the tag is
/// another one. In version 2 the two settings stand in the headers; in version 1 they stand in the content, which is
/// written again as compact text. The two marks of a message that is delivered again are taken out; all else is kept.
///
/// # Errors
/// `TooLong` where the compact text would have more than 1,040,000 bytes, or more than 1,000,000 with both marks.
/// `Memory` is want of memory.
pub fn again(
    alloc: Global,
    e: &Envelope,
    t: &Task,
    tag: Tag,
    eta: Moment,
) -> Result<Envelope, TaskFault>
    // The task was read from this envelope.
    requires read { task_of (data_of e.now) ≡ Ok (task_view t.now) }
    requires retries { t.now.retries + 1 < 2 ^ 32 }
    requires eta { is_within_years eta.0 ≡ true }
    ensures { GivesTask data_of result (again_of (data_of e.now) (task_view t.now) tag.0 eta.0) }
{
    let next = Retry {
        retries: t.retries,
        eta,
    };
    let tree = tree_again(alloc, e, t, tag, next)?;
    short_tree(alloc, tree)
}

/// The tree of an envelope that is sent again.
fn tree_again(
    alloc: Global,
    e: &Envelope,
    t: &Task,
    tag: Tag,
    next: Retry,
) -> Result<Value, AllocError>
    requires { task_of (data_of e.now) ≡ Ok (task_view t.now) }
    ensures tree { IfOk result (λ v. data_of v
        ≡ again_tree (data_of e.now) t.now.version next.retries tag.0 next.eta.0) }
    ensures whole { IfOk result (λ v. IsWhole (data_of v)) }
{
    let mut tree = e.tree().clone()?;
    renew_headers_in(alloc, &mut tree, t.version, next)?;
    renew_properties_in(alloc, &mut tree, tag)?;
    renew_body(alloc, &mut tree, e, t, next)?;
    Ok(tree)
}

/// Puts the new body of version 1 into an envelope's tree; in version 2 the body stays.
fn renew_body(
    alloc: Global,
    tree: &mut Value,
    e: &Envelope,
    t: &Task,
    next: Retry,
) -> Result<(), AllocError>
    requires { task_of (data_of e.now) ≡ Ok (task_view t.now) }
    ensures tree { OnOk result (data_of tree.new ≡ with_body t.now.version
        (body_again next.retries next.eta.0 (parts_in (data_of e.now)).content)
        (data_of tree.old)) }
    ensures body { OnOk result (t.now.version ≡ 1
        → IsBody (body_again next.retries next.eta.0 (parts_in (data_of e.now)).content)) }
{
    if t.version == 1 {
        let body = new_body(alloc, e.content(), next)?;
        put_text(alloc, tree, "body", body.as_str())?;
    }
    Ok(())
}

/// The envelope of a tree that is one but for its length.
fn short_tree(alloc: Global, tree: Value) -> Result<Envelope, TaskFault>
    requires { IsWhole (data_of tree) }
    ensures { GivesTask data_of result (if_short (data_of tree)) }
{
    match of_tree(alloc, tree) {
        Ok(envelope) => Ok(envelope),
        Err(fault) => Err(refused(fault)),
    }
}

/// The fault of a task, where its envelope is too long or memory is wanting.
fn refused(fault: EnvelopeFault) -> TaskFault
    requires { IsOfLength fault }
    ensures { result ≡ refused fault }
{
    match fault {
        EnvelopeFault::TooLong => TaskFault::TooLong,
        EnvelopeFault::Memory => TaskFault::Memory,
        EnvelopeFault::NotJson => unreachable!(),
        EnvelopeFault::TooDeep => unreachable!(),
        EnvelopeFault::Float => unreachable!(),
        EnvelopeFault::Missing(_) => unreachable!(),
        EnvelopeFault::Compressed => unreachable!(),
        EnvelopeFault::BadBody => unreachable!(),
    }
}
