//! Laws of the wire.
ghost use Rattle.std.specs.Prelude.{◌≡◌, ◌++◌, ◌+◌, ℕ, List, length, Some};
ghost use Rattle.wire_grammar.specs.Spells.{Spells};
ghost use Rattle.wire_grammar.specs.Reads.{Got, read, wire_fault};
ghost use Rattle.wire_grammar.specs.Texts.{spelling};
ghost use Rattle.wire_grammar.specs.Faults.{IsWrongAt, OneHolds};
ghost use Rattle.wire_values.specs.declared.value.Value.{Value as TheValue};
ghost use Rattle.wire_grammar.specs.declared.kind.WireKind.{WireKind as TheKind};

/// A value has one spelling.
pub fn one_spelling()
    ensures { (v : TheValue) (b : List ℕ) → Spells v b → b ≡ spelling v }
{}

/// What is written is read again, whatever follows it.
pub fn written_is_read()
    ensures { (v : TheValue) (b rest : List ℕ) (p : ℕ) → Spells v b → read p (b ++ rest) ≡ Got v (p + length b) rest }
{}

/// A stream begins with a value, or is a front, or has a fault; a fault stands beside neither of the others.
pub fn one_of_three()
    ensures { (p : ℕ) (b : List ℕ) → OneHolds p b }
{}

/// A fault stands at the first byte at which no value can go on, or where a value passes its limit; its kind is that of its
/// place in the value; and it stays, whatever follows.
pub fn faults()
    ensures { (p : ℕ) (b more : List ℕ) (kind : TheKind) (q : ℕ) → wire_fault p b ≡ Some (kind, q) → IsWrongAt p b kind q × (wire_fault p (b ++ more) ≡ Some (kind, q)) }
{}

/// A fault has one place and one kind: what the words of spellings say is wrong is what is read as wrong.
pub fn one_fault()
    ensures { (p : ℕ) (b : List ℕ) (kind : TheKind) (q : ℕ) → IsWrongAt p b kind q → wire_fault p b ≡ Some (kind, q) }
{}
