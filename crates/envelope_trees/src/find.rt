//! Looking for the members of an envelope's tree.
ghost use Rattle.std.specs.Prelude.{◌≡◌, option_map};
ghost use Rattle.serde_json.specs.View.{view};
ghost use Rattle.serde_json.specs.Find.{get};
ghost use Rattle.envelope_trees.specs.Members.{is_nothing, is_true_at, says_word, is_word_any_case, object_at, text_at};
ghost use Rattle.envelope_trees.specs.Reading.{Gives, needed, wanted};
ghost use Rattle.envelope_trees.specs.declared.fault.EnvelopeFault.TheVariants.{Missing};

use crate::fault::{EnvelopeFault, Field};
use serde_json::Value;

/// The text at a name.
pub fn text<'a>(value: &'a Value, name: &str) -> Option<&'a str>
    ensures { option_map (λ s. s.now) result ≡ text_at name.now (view value.now) }
{
    value.get(name)?.as_str()
}

/// The object at a name.
pub fn object<'a>(value: &'a Value, name: &str) -> Option<&'a Value>
    ensures { option_map (λ v. view v.now) result ≡ object_at name.now (view value.now) }
{
    let member = value.get(name)?;
    if member.is_object() {
        Some(member)
    } else {
        None
    }
}

/// The text at a name, or the fault that it is missing.
pub fn needed_text<'a>(value: &'a Value, name: &str, field: Field) -> Result<&'a str, EnvelopeFault>
    ensures { Gives (λ s. s.now) result (needed (Missing field)
        (text_at name.now (view value.now))) }
{
    match text(value, name) {
        Some(found) => Ok(found),
        None => Err(EnvelopeFault::Missing(field)),
    }
}

/// The object at a name, or the fault that it is missing.
pub fn needed_object<'a>(
    value: &'a Value,
    name: &str,
    field: Field,
) -> Result<&'a Value, EnvelopeFault>
    ensures { Gives (λ v. view v.now) result (needed (Missing field)
        (object_at name.now (view value.now))) }
{
    match object(value, name) {
        Some(found) => Ok(found),
        None => Err(EnvelopeFault::Missing(field)),
    }
}

/// Whether the text at a name is the word.
pub fn is_word_at(value: &Value, name: &str, word: &str) -> bool
    ensures { result ≡ says_word word.now (text_at name.now (view value.now)) }
{
    match text(value, name) {
        Some(found) => found == word,
        None => false,
    }
}

/// Whether the text at a name is the word in some case.
pub fn is_word_any_case_at(value: &Value, name: &str, word: &str) -> bool
    ensures { result ≡ is_word_any_case word.now (text_at name.now (view value.now)) }
{
    match text(value, name) {
        Some(found) => found.eq_ignore_ascii_case(word),
        None => false,
    }
}

/// Whether a member is absent or null.
pub fn is_nothing_at(value: &Value, name: &str) -> bool
    ensures { result ≡ is_nothing (get name.now (view value.now)) }
{
    match value.get(name) {
        Some(found) => found.is_null(),
        None => true,
    }
}

/// Whether a member is true.
pub fn is_set_at(value: &Value, name: &str) -> bool
    ensures { result ≡ is_true_at name.now (view value.now) }
{
    match value.get(name) {
        Some(found) => found.as_bool().unwrap_or(false),
        None => false,
    }
}

/// The fault, unless the fact holds.
pub fn want(holds: bool, fault: EnvelopeFault) -> Result<(), EnvelopeFault>
    ensures { Gives (λ x. x) result (wanted fault holds) }
{
    if holds { Ok(()) } else { Err(fault) }
}
