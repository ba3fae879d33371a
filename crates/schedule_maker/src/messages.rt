//! The text of a made schedule.
ghost use Rattle.std.specs.Prelude.{◌≡◌, ◌++◌, ◌<◌, ◌^◌, IfOk, OnOk};
ghost use Rattle.schedule_maker.specs.Made.{made_ack, made_message, made_pop, made_publish, made_text};

use std::alloc::{AllocError, Global};
use wire_values::Bytes;

/// A schedule of so many messages.
///
/// Client 1 publishes message i at second i with the priority i mod 10; clients 2 and 3 pop them in turn, and acknowledge
/// each but every tenth. At second 100,000 client 3 passes over what is older than an hour.
pub fn make(alloc: Global, messages: u64) -> Result<Bytes, AllocError>
    ensures { IfOk result (λ text. text ≡ made_text messages) }
{
    let mut out = Vec::from_slice(
        alloc,
        b"celery-schedule 1\nclient 1 seed 1\nclient 2 seed 2\nclient 3 seed 3\n",
    )?;
    for before in 0..messages {
        message(alloc, &mut out, before + 1)?;
    }
    out.extend_from_slice(b"at 100000\nbegin 3 pass 3600\nrun 3\n")?;
    Ok(Bytes::from_vec(out))
}

/// Appends the lines of the message of this number.
fn message(alloc: Global, out: &mut Vec<u8>, number: u64) -> Result<(), AllocError>
    ensures { OnOk result (out.new.items ≡ out.old.items ++ made_message number) }
{
    let popper = 2 + number % 2;
    publish(alloc, out, number)?;
    pop(alloc, out, popper)?;
    if number % 10 != 0 {
        ack(alloc, out, popper, number)?;
    }
    Ok(())
}

/// Appends the lines by which client 1 publishes a message.
fn publish(alloc: Global, out: &mut Vec<u8>, number: u64) -> Result<(), AllocError>
    ensures { OnOk result (out.new.items ≡ out.old.items ++ made_publish number) }
{
    let priority = number % 10;
    let text = format!(in alloc;
        "at {number}\nbegin 1 publish - celery {priority} tasks.add [{number},1]\nrun 1\n"
    )?;
    out.extend_from_slice(text.as_bytes())?;
    Ok(())
}

/// Appends the lines by which a client pops a message.
fn pop(alloc: Global, out: &mut Vec<u8>, popper: u64) -> Result<(), AllocError>
    ensures { OnOk result (out.new.items ≡ out.old.items ++ made_pop popper) }
{
    let text = format!(in alloc; "begin {popper} pop celery\nrun {popper}\n")?;
    out.extend_from_slice(text.as_bytes())?;
    Ok(())
}

/// Appends the lines by which a client acknowledges a message.
fn ack(alloc: Global, out: &mut Vec<u8>, popper: u64, number: u64) -> Result<(), AllocError>
    ensures { OnOk result (out.new.items ≡ out.old.items ++ made_ack popper number) }
{
    let text = format!(in alloc; "begin {popper} ack 1:{number}\nrun {popper}\n")?;
    out.extend_from_slice(text.as_bytes())?;
    Ok(())
}
