//! Each built-in task as a stored closure, registered by its name.
ghost use Rattle.std.specs.Prelude.{◌≡◌, IfOk};
ghost use Rattle.serde_json.specs.View.{view as data_of};
ghost use Rattle.built_in_tasks.specs.BuiltIns.{add_answer, again_answer, echo_answer, fail_answer};

use crate::answered::rows_are;
use built_in_tasks::{StoredTask, add, again, echo, fail};
use envelope::Tree;
use place_model::Outcome;
use std::alloc::{AllocError, Global};
use std::test::Fail;
use task_registry::Registry;

#[test]
#[tactic(auto, using(crate::proofs::Kept::keeps_add))]
fn two_whole_numbers_are_added(rt: HostRuntime) -> Result<(), Fail> {
    let alloc: Global = rt.alloc();
    let name = String::from_str(alloc, "tasks.add")?;
    let body = Box::new(
        alloc,
        move |args: &Tree, kwargs: &Tree| -> Result<Outcome, AllocError>
            ensures { IfOk result (λ o. o ≡ add_answer (data_of args.now) (data_of kwargs.now)) }
        { add(alloc, args, kwargs) },
    )?;
    let mut registry = Registry::<StoredTask>::new(alloc);
    let told = registry.register(StoredTask::new(name, body));
    assert!(rt; told.is_ok(), "it is registered");
    rows_are(
        &rt,
        alloc,
        &registry,
        "tasks.add",
        &[
            ("[2,3]", "{}", "success 5"),
            (
                "[-9223372036854775808,1]",
                "{}",
                "success -9223372036854775807",
            ),
            (
                "[18446744073709551615,0]",
                "{}",
                "success 18446744073709551615",
            ),
            ("[18446744073709551615,1]", "{}", "failure bad arguments"),
            ("[-9223372036854775808,-1]", "{}", "failure bad arguments"),
            ("[2]", "{}", "failure bad arguments"),
            ("[2,3,4]", "{}", "failure bad arguments"),
            ("[2,3.0]", "{}", "failure bad arguments"),
            ("[2,\"3\"]", "{}", "failure bad arguments"),
            ("{}", "{}", "failure bad arguments"),
            ("[2,3]", "{\"x\":1}", "failure bad arguments"),
        ],
    )?;
    rows_are(
        &rt,
        alloc,
        &registry,
        "tasks.ad",
        &[("[2,3]", "{}", "unknown")],
    )
}

#[test]
#[tactic(auto, using(crate::proofs::Kept::keeps_echo))]
fn one_argument_is_echoed(rt: HostRuntime) -> Result<(), Fail> {
    let alloc: Global = rt.alloc();
    let name = String::from_str(alloc, "tasks.echo")?;
    let body = Box::new(
        alloc,
        move |args: &Tree, kwargs: &Tree| -> Result<Outcome, AllocError>
            ensures { IfOk result (λ o. o ≡ echo_answer (data_of args.now) (data_of kwargs.now)) }
        { echo(alloc, args, kwargs) },
    )?;
    let mut registry = Registry::<StoredTask>::new(alloc);
    let told = registry.register(StoredTask::new(name, body));
    assert!(rt; told.is_ok(), "it is registered");
    rows_are(
        &rt,
        alloc,
        &registry,
        "tasks.echo",
        &[
            ("[\"a b\"]", "{}", "success \"a b\""),
            (
                "[ { \"b\" : [ 1 , null ] , \"a\" : true } ]",
                "{}",
                "success {\"a\":true,\"b\":[1,null]}",
            ),
            ("[]", "{}", "failure bad arguments"),
            ("[1,2]", "{}", "failure bad arguments"),
            ("[1.5]", "{}", "failure bad arguments"),
            ("[1]", "{\"x\":1}", "failure bad arguments"),
        ],
    )
}

#[test]
#[tactic(auto, using(crate::proofs::Kept::keeps_fail))]
fn a_failing_task_fails(rt: HostRuntime) -> Result<(), Fail> {
    let alloc: Global = rt.alloc();
    let name = String::from_str(alloc, "tasks.fail")?;
    let body = Box::new(
        alloc,
        move |_args: &Tree, _kwargs: &Tree| -> Result<Outcome, AllocError>
            ensures { IfOk result (λ o. o ≡ fail_answer) }
        { fail(alloc) },
    )?;
    let mut registry = Registry::<StoredTask>::new(alloc);
    let told = registry.register(StoredTask::new(name, body));
    assert!(rt; told.is_ok(), "it is registered");
    rows_are(
        &rt,
        alloc,
        &registry,
        "tasks.fail",
        &[
            ("[]", "{}", "failure failed"),
            ("[1]", "{\"x\":1}", "failure failed"),
        ],
    )
}

#[test]
#[tactic(auto, using(crate::proofs::Kept::keeps_again))]
fn a_retry_waits_so_many_seconds(rt: HostRuntime) -> Result<(), Fail> {
    let alloc: Global = rt.alloc();
    let name = String::from_str(alloc, "tasks.again")?;
    let body = Box::new(
        alloc,
        move |args: &Tree, kwargs: &Tree| -> Result<Outcome, AllocError>
            ensures { IfOk result (λ o. o ≡ again_answer (data_of args.now) (data_of kwargs.now)) }
        { again(alloc, args, kwargs) },
    )?;
    let mut registry = Registry::<StoredTask>::new(alloc);
    let told = registry.register(StoredTask::new(name, body));
    assert!(rt; told.is_ok(), "it is registered");
    rows_are(
        &rt,
        alloc,
        &registry,
        "tasks.again",
        &[
            ("[]", "{}", "retry 180"),
            ("[0]", "{}", "retry 0"),
            ("[4294967295]", "{}", "retry 4294967295"),
            ("[4294967296]", "{}", "failure bad arguments"),
            ("[-1]", "{}", "failure bad arguments"),
            ("[1,2]", "{}", "failure bad arguments"),
            ("[]", "{\"x\":1}", "failure bad arguments"),
        ],
    )
}
