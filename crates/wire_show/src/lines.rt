//! The lines of values, gathered until they are written.
ghost use Rattle.std.specs.Io.KnownBytes.{Appends};
ghost use Rattle.std.specs.Prelude.{◌≡◌, ◌++◌, [], OnErr, OnOk};
ghost use Rattle.links.specs.Causes.{AppendsFront, HasCause};
ghost use Rattle.wire_show.specs.Shows.{value_line};

use line_text::value_form;
use links::{Failed, Sink, write_all};
use std::alloc::{AllocError, Global};
use wire_values::Value;

/// Lines that are to be written, and room for the line at hand.
#[derive(Drop)]
pub struct ValueLines {
    pub ready: Vec<u8>,
    pub line: Vec<u8>,
}

impl ValueLines {
    /// No lines. It takes no memory.
    pub fn new(alloc: Global) -> Self
        ensures { result.ready.items ≡ [] }
    {
        ValueLines {
            ready: Vec::new(alloc),
            line: Vec::new(alloc),
        }
    }

    /// Adds the line of a value; without memory the lines stay as they were.
    fn add(&mut self, alloc: Global, value: &Value) -> Result<(), AllocError>
        ensures ok { OnOk result (self.new.ready.items ≡ self.old.ready.items ++ value_line value.now) }
        ensures err { OnErr result (self.new.ready.items ≡ self.old.ready.items) }
    {
        self.line.clear();
        value_form(alloc, &mut self.line, value)?;
        self.line.push(b'\n')?;
        self.ready.extend_from_slice(self.line.as_slice())?;
        Ok(())
    }

    /// Adds the line of a value that isn't needed any more.
    pub fn put(&mut self, alloc: Global, value: Value) -> Result<(), AllocError>
        ensures ok { OnOk result (self.new.ready.items ≡ self.old.ready.items ++ value_line value) }
        ensures err { OnErr result (self.new.ready.items ≡ self.old.ready.items) }
    {
        self.add(alloc, &value)
    }

    /// Writes the lines, and then there are none.
    pub fn write<K: Sink>(&mut self, out: &mut K) -> Result<(), Failed>
        ensures ok { OnOk result (Appends (K.taken out.old) (K.taken out.new) self.old.ready.items) }
        ensures none { OnOk result (self.new.ready.items ≡ []) }
        ensures err { OnErr result (AppendsFront (K.taken out.old) (K.taken out.new) self.old.ready.items) }
        ensures cause { HasCause (K.write_faults out.old) (K.write_faults out.new) result }
    {
        write_all(out, self.ready.as_slice())?;
        self.ready.clear();
        Ok(())
    }
}
