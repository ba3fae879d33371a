//! Rows of a stored task: its arguments, and what comes of them.
use envelope::Tree;
use place_model::Outcome;
use std::alloc::{AllocError, Global};
use std::process::Abort;
use std::test::Fail;
use task_registry::{Body, Registry, RegistryFault};

/// Positional arguments and keyword arguments as JSON, and what is answered, in words.
pub(crate) type Row = (&'static str, &'static str, &'static str);

/// What a run answered, in words.
fn words_of(alloc: Global, answer: &Result<Outcome, RegistryFault>) -> Result<String, AllocError> {
    match answer {
        Ok(Outcome::Success(text)) => {
            joined(
                alloc,
                "success ",
                str::from_utf8(text.as_slice()).unwrap_or("no text"),
            )
        }
        Ok(Outcome::Failure(text)) => {
            joined(
                alloc,
                "failure ",
                str::from_utf8(text.as_slice()).unwrap_or("no text"),
            )
        }
        Ok(Outcome::Retry(seconds)) => joined(alloc, "retry ", &seconds.to_string(alloc)?),
        Err(RegistryFault::Known) => String::from_str(alloc, "known"),
        Err(RegistryFault::Unknown) => String::from_str(alloc, "unknown"),
        Err(RegistryFault::Memory) => String::from_str(alloc, "memory"),
    }
}

/// Two texts, one behind the other.
fn joined(alloc: Global, first: &str, second: &str) -> Result<String, AllocError> {
    let mut text = String::from_str(alloc, first)?;
    text.push_str(second)?;
    Ok(text)
}

/// Runs a task of a registry on each row's arguments, and compares what comes of it.
pub(crate) fn rows_are<B: Body, R: Abort>(
    rt: &R,
    alloc: Global,
    registry: &Registry<B>,
    name: &str,
    rows: &[Row],
) -> Result<(), Fail> {
    for (args, kwargs, want) in rows {
        let args_tree = Tree::from_slice(alloc, args.as_bytes())?;
        let kwargs_tree = Tree::from_slice(alloc, kwargs.as_bytes())?;
        let answer = registry.run(name.as_bytes(), &args_tree, &kwargs_tree);
        let found = words_of(alloc, &answer)?;
        assert!(rt;
            found.as_str() == *want,
            "{args} {kwargs}: {found}, and not {want}"
        );
    }
    Ok(())
}
