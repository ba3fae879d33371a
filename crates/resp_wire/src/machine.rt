//! What one byte does to the open arrays and the piece at hand.
ghost use Rattle.std.specs.Prelude.{◌≡◌, ◌<◌, ◌^◌, [], false, IfOk, Ok, None};
ghost use Rattle.wire_grammar.specs.declared.kind.NumberKind.TheVariants.{Count, Length, Whole};
ghost use Rattle.wire_grammar.specs.Limits.{limit_of};
ghost use Rattle.wire_grammar.specs.Reads.{begins_below, grown, over_of, signed};
ghost use Rattle.resp_wire.specs.declared.state.WireSpot.TheVariants.{Text};
ghost use Rattle.resp_wire.specs.Steps.{StepIs, StepTells, headed, settle, state, step, step_begin, step_digit, step_digits, step_feed, step_first, step_line, step_minus, step_return, step_star, step_text, step_text_feed, step_zero, text_value, with_bytes};

use crate::state::{Core, Open, Phase, StepFault, WireSpot};
use sqlite_items::Items;
use std::alloc::{AllocError, Global};
use std::mem;
use wire_grammar::{
    COUNT_LIMIT, DEPTH_LIMIT, LENGTH_LIMIT, NumberKind, TEXT_LIMIT, TextKind, WireKind,
};
use wire_values::{Bytes, Value};

/// Takes one byte: the reading goes on, or a value is whole, or the byte is wrong.
pub fn step(
    core: &mut Core,
    alloc: Global,
    spot: WireSpot,
    byte: u8,
) -> Result<Option<Value>, StepFault>
    ensures { StepIs (step spot (state core.old) byte) (state core.new) result }
{
    match spot {
        WireSpot::Begin => begin(core, byte),
        WireSpot::Text(kind) => text(core, alloc, kind, byte),
        WireSpot::TextFeed(kind) => text_feed(core, alloc, kind, byte),
        WireSpot::First(kind) => first(core, kind, byte),
        WireSpot::Minus(kind) => minus(core, kind, byte),
        WireSpot::Zero(kind) => zero(core, kind, byte),
        WireSpot::Digits(kind, negative) => digits(core, kind, negative, byte),
        WireSpot::Feed(kind, negative) => feed(core, alloc, kind, negative, byte),
        WireSpot::Return => carriage_return(core, byte),
        WireSpot::Line => line(core, alloc, byte),
    }
}

/// Puts a whole value into the open arrays, and closes those that are whole.
fn put(core: &mut Core, alloc: Global, value: Value) -> Result<Option<Value>, AllocError>
    ensures { IfOk result (λ done. StepIs (settle core.old.number core.old.bytes value (state core.old).opens) (state core.new) (Ok done)) }
{
    let mut value = value;
    'up: while let Some(open) = core.opens.pop_front() {
        let mut open = open;
        open.items.push(value)?;
        if open.more > 0 {
            open.more -= 1;
            core.opens.push_front(open)?;
            core.phase = Phase::At(WireSpot::Begin);
            return Ok(None);
        }
        value = Value::Array(open.items);
    }
    core.phase = Phase::At(WireSpot::Begin);
    Ok(Some(value))
}

fn begin(core: &mut Core, byte: u8) -> Result<Option<Value>, StepFault>
    ensures { StepTells (step_begin (state core.old) byte) (state core.new) result }
{
    if byte == b'+' {
        begin_text(core, TextKind::Status);
        Ok(None)
    } else if byte == b'-' {
        begin_text(core, TextKind::Error);
        Ok(None)
    } else if byte == b':' {
        core.phase = Phase::At(WireSpot::First(NumberKind::Whole));
        Ok(None)
    } else if byte == b'$' {
        core.phase = Phase::At(WireSpot::First(NumberKind::Length));
        Ok(None)
    } else if byte == b'*' {
        begin_array(core)
    } else {
        Err(StepFault::Bad(WireKind::BadKind))
    }
}

fn begin_text(core: &mut Core, kind: TextKind)
    ensures { state core.new ≡ with_bytes (state core.old) (Text kind) [] }
{
    core.bytes = Bytes::new();
    core.phase = Phase::At(WireSpot::Text(kind));
}

fn begin_array(core: &mut Core) -> Result<Option<Value>, StepFault>
    ensures { StepTells (step_star (state core.old)) (state core.new) result }
{
    if core.opens.len() < DEPTH_LIMIT {
        core.phase = Phase::At(WireSpot::First(NumberKind::Count));
        Ok(None)
    } else {
        Err(StepFault::Bad(WireKind::TooDeep))
    }
}

fn text(
    core: &mut Core,
    alloc: Global,
    kind: TextKind,
    byte: u8,
) -> Result<Option<Value>, StepFault>
    ensures { StepIs (step_text kind (state core.old) byte) (state core.new) result }
{
    if byte == b'\r' {
        core.phase = Phase::At(WireSpot::TextFeed(kind));
        Ok(None)
    } else if byte == b'\n' {
        Err(StepFault::Bad(WireKind::NoCrLf))
    } else if core.bytes.len() < TEXT_LIMIT {
        core.bytes.push(alloc, byte)?;
        core.phase = Phase::At(WireSpot::Text(kind));
        Ok(None)
    } else {
        Err(StepFault::Bad(WireKind::TooLong))
    }
}

fn text_feed(
    core: &mut Core,
    alloc: Global,
    kind: TextKind,
    byte: u8,
) -> Result<Option<Value>, StepFault>
    ensures { StepIs (step_text_feed kind (state core.old) byte) (state core.new) result }
{
    if byte == b'\n' {
        let bytes = mem::replace(&mut core.bytes, Bytes::new());
        Ok(put(core, alloc, text_value(kind, bytes))?)
    } else {
        Err(StepFault::Bad(WireKind::NoCrLf))
    }
}

fn text_value(kind: TextKind, bytes: Bytes) -> Value
    ensures { result ≡ text_value kind bytes }
{
    match kind {
        TextKind::Status => Value::Status(bytes),
        TextKind::Error => Value::Error(bytes),
    }
}

fn first(core: &mut Core, kind: NumberKind, byte: u8) -> Result<Option<Value>, StepFault>
    ensures { StepTells (step_first kind (state core.old) byte) (state core.new) result }
{
    if byte == b'0' {
        core.number = 0;
        core.phase = Phase::At(WireSpot::Zero(kind));
        Ok(None)
    } else if b'0' <= byte && byte <= b'9' {
        core.number = u64::from(byte - b'0');
        core.phase = Phase::At(WireSpot::Digits(kind, false));
        Ok(None)
    } else if byte == b'-' {
        core.phase = Phase::At(WireSpot::Minus(kind));
        Ok(None)
    } else {
        Err(StepFault::Bad(WireKind::BadInteger))
    }
}

fn minus(core: &mut Core, kind: NumberKind, byte: u8) -> Result<Option<Value>, StepFault>
    ensures { StepTells (step_minus kind (state core.old) byte) (state core.new) result }
{
    if b'1' <= byte && byte <= b'9' && u64::from(byte - b'1') <= limit(kind, true) {
        core.number = u64::from(byte - b'1');
        core.phase = Phase::At(WireSpot::Digits(kind, true));
        Ok(None)
    } else {
        Err(StepFault::Bad(WireKind::BadInteger))
    }
}

fn zero(core: &mut Core, kind: NumberKind, byte: u8) -> Result<Option<Value>, StepFault>
    ensures { StepTells (step_zero kind (state core.old) byte) (state core.new) result }
{
    if byte == b'\r' {
        core.number = 0;
        core.phase = Phase::At(WireSpot::Feed(kind, false));
        Ok(None)
    } else {
        Err(StepFault::Bad(WireKind::BadInteger))
    }
}

fn digits(
    core: &mut Core,
    kind: NumberKind,
    negative: bool,
    byte: u8,
) -> Result<Option<Value>, StepFault>
    ensures { StepTells (step_digits kind negative (state core.old) byte) (state core.new) result }
{
    if byte == b'\r' {
        core.phase = Phase::At(WireSpot::Feed(kind, negative));
        Ok(None)
    } else if b'0' <= byte && byte <= b'9' {
        digit(core, kind, negative, byte - b'0')
    } else {
        Err(StepFault::Bad(WireKind::BadInteger))
    }
}

fn digit(
    core: &mut Core,
    kind: NumberKind,
    negative: bool,
    digit: u8,
) -> Result<Option<Value>, StepFault>
    requires { digit < 10 }
    ensures { StepTells (step_digit kind negative (state core.old) digit) (state core.new) result }
{
    let sum = grown(core.number, negative, digit);
    let limit = limit(kind, negative);
    if sum <= u128::from(limit) {
        core.number = sum as u64;
        core.phase = Phase::At(WireSpot::Digits(kind, negative));
        Ok(None)
    } else {
        Err(StepFault::Bad(over(kind, negative)))
    }
}

/// The number with one digit more; behind a minus sign a number stands for what is one below it.
fn grown(number: u64, negative: bool, digit: u8) -> u128
    ensures { result ≡ grown negative number digit }
{
    let tens = u128::from(number) * 10;
    if negative {
        tens + 9 + u128::from(digit)
    } else {
        tens + u128::from(digit)
    }
}

fn limit(kind: NumberKind, negative: bool) -> u64
    ensures is { result ≡ limit_of kind negative }
    ensures small { result < 2 ^ 63 }
{
    match kind {
        NumberKind::Whole => 9_223_372_036_854_775_807,
        NumberKind::Length => { if negative { 0 } else { LENGTH_LIMIT } }
        NumberKind::Count => { if negative { 0 } else { COUNT_LIMIT } }
    }
}

fn over(kind: NumberKind, negative: bool) -> WireKind
    ensures { result ≡ over_of kind negative }
{
    match kind {
        NumberKind::Whole => WireKind::BadInteger,
        NumberKind::Length | NumberKind::Count => {
            if negative {
                WireKind::BadInteger
            } else {
                WireKind::TooLong
            }
        }
    }
}

fn feed(
    core: &mut Core,
    alloc: Global,
    kind: NumberKind,
    negative: bool,
    byte: u8,
) -> Result<Option<Value>, StepFault>
    ensures { StepIs (step_feed kind negative (state core.old) byte) (state core.new) result }
{
    if byte == b'\n' {
        Ok(head(core, alloc, kind, negative)?)
    } else {
        Err(StepFault::Bad(WireKind::NoCrLf))
    }
}

/// What a whole number does.
fn head(
    core: &mut Core,
    alloc: Global,
    kind: NumberKind,
    negative: bool,
) -> Result<Option<Value>, AllocError>
    ensures { IfOk result (λ done. StepIs (headed kind (signed negative core.old.number) (state core.old)) (state core.new) (Ok done)) }
{
    match kind {
        NumberKind::Whole => whole(core, alloc, negative),
        NumberKind::Length => {
            if negative {
                put(core, alloc, Value::NullBulk)
            } else {
                length(core);
                Ok(None)
            }
        }
        NumberKind::Count => {
            if negative {
                put(core, alloc, Value::NullArray)
            } else {
                count(core, alloc)
            }
        }
    }
}

fn whole(core: &mut Core, alloc: Global, negative: bool) -> Result<Option<Value>, AllocError>
    ensures { IfOk result (λ done. StepIs (headed Whole (signed negative core.old.number) (state core.old)) (state core.new) (Ok done)) }
{
    let number = signed(core.number, negative);
    put(core, alloc, Value::Integer(number))
}

fn signed(number: u64, negative: bool) -> i64
    requires { number < 2 ^ 63 }
    ensures { result ≡ signed negative number }
{
    let number = number as i64;
    if negative { -1 - number } else { number }
}

fn length(core: &mut Core)
    ensures { StepIs (headed Length (signed false core.old.number) (state core.old)) (state core.new) (Ok None) }
{
    core.bytes = Bytes::new();
    core.phase = if core.number == 0 {
        Phase::At(WireSpot::Return)
    } else {
        Phase::Content
    };
    core.number = core.number.saturating_sub(1);
}

fn count(core: &mut Core, alloc: Global) -> Result<Option<Value>, AllocError>
    ensures { IfOk result (λ done. StepIs (headed Count (signed false core.old.number) (state core.old)) (state core.new) (Ok done)) }
{
    if core.number == 0 {
        return put(core, alloc, Value::Array(Items::new(alloc)));
    }
    core.opens.push_front(Open {
        more: core.number - 1,
        items: Items::new(alloc),
    })?;
    core.phase = Phase::At(WireSpot::Begin);
    Ok(None)
}

fn carriage_return(core: &mut Core, byte: u8) -> Result<Option<Value>, StepFault>
    ensures { StepTells (step_return (state core.old) byte) (state core.new) result }
{
    if byte == b'\r' {
        core.phase = Phase::At(WireSpot::Line);
        Ok(None)
    } else {
        Err(StepFault::Bad(WireKind::NoCrLf))
    }
}

fn line(core: &mut Core, alloc: Global, byte: u8) -> Result<Option<Value>, StepFault>
    ensures { StepIs (step_line (state core.old) byte) (state core.new) result }
{
    if byte == b'\n' {
        let bytes = mem::replace(&mut core.bytes, Bytes::new());
        Ok(put(core, alloc, Value::Bulk(bytes))?)
    } else {
        Err(StepFault::Bad(WireKind::NoCrLf))
    }
}
