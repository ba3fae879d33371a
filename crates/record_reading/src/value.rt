//! Values, words and replies.
ghost use Rattle.std.specs.Prelude.{◌≡◌, ◌++◌, ◌∷◌, [], IfOk, IfSome, nat_le, true};
ghost use Rattle.std.specs.List.{list_all};
ghost use Rattle.line_text.specs.Forms.{quoted, value_form, words_text};
ghost use Rattle.history_records.specs.Lines.{reply_text};
ghost use Rattle.history_records.specs.Recordable.{IsReply, are_bytes, depth as value_depth, is_typed};
ghost use Rattle.record_model.specs.Said.{are_shallow, max_depth};
ghost use Rattle.record_reading.specs.Reads.{HasRead, are_at_most, are_typed, items_text};

use crate::rest::Rest;
use sqlite_items::Items;
use std::alloc::{AllocError, Global};
use store_model::Reply;
use wire_values::{Bytes, List, Value, Values, Words};

/// How many arrays of a reply may stand in one another.
pub(crate) const REPLY_DEPTH: u32 = 64;

impl<'a> Rest<'a> {
    /// Reads a value with at most so many arrays in one another, of which this is the outermost.
    #[cycle(values)]
    #[tactic(auto, using(crate::proofs::Deep::typed_array, crate::proofs::Deep::shallow_array))]
    pub(crate) fn value(&mut self, alloc: Global, depth: u32) -> Result<Option<Value>, AllocError>
        ensures text { IfOk result (λ found. IfSome found (λ value. HasRead (value_form value) self.old self.new)) }
        ensures typed { IfOk result (λ found. IfSome found (λ value. is_typed value ≡ true)) }
        ensures shallow { IfOk result (λ found. IfSome found (λ value. nat_le (value_depth value) depth ≡ true)) }
    {
        if self.pass(b"+") {
            return Ok(self.quoted(alloc)?.map(Value::Status));
        }
        if self.pass(b"-") {
            return Ok(self.quoted(alloc)?.map(Value::Error));
        }
        if self.pass(b":") {
            return Ok(self.integer().map(Value::Integer));
        }
        if self.pass(b"$-") {
            return Ok(Some(Value::NullBulk));
        }
        if self.pass(b"$") {
            return Ok(self.quoted(alloc)?.map(Value::Bulk));
        }
        if self.pass(b"*-") {
            return Ok(Some(Value::NullArray));
        }
        if depth > 0 && self.pass(b"*[") {
            return Ok(self.items(alloc, depth - 1)?.map(Value::Array));
        }
        Ok(None)
    }

    /// Reads the items of an array and the bracket after them.
    #[cycle(values)]
    fn items(&mut self, alloc: Global, depth: u32) -> Result<Option<Values>, AllocError>
        ensures text { IfOk result (λ found. IfSome found (λ items. HasRead (items_text items) self.old self.new)) }
        ensures typed { IfOk result (λ found. IfSome found (λ items. are_typed items ≡ true)) }
        ensures shallow { IfOk result (λ found. IfSome found (λ items. are_at_most depth items ≡ true)) }
    {
        let mut items = Items::new(alloc);
        let mut separator: &[u8] = b"";
        'items: while !self.pass(b"]") {
            if !self.pass(separator) {
                return Ok(None);
            }
            match self.value(alloc, depth)? {
                Some(item) => items.push(item)?,
                None => return Ok(None),
            }
            separator = b", ";
        }
        Ok(Some(items))
    }
}

impl<'a> Rest<'a> {
    /// Reads words in quoted form, each with a space after it.
    pub(crate) fn words(&mut self, alloc: Global) -> Result<Option<Words>, AllocError>
        ensures text { IfOk result (λ found. IfSome found (λ words. HasRead (words_text quoted words ++ 61 ∷ []) self.old self.new)) }
        ensures typed { IfOk result (λ found. IfSome found (λ words. list_all are_bytes words ≡ true)) }
    {
        let mut words = List::new();
        'words: while !self.pass(b"=") {
            match self.word(alloc)? {
                Some(word) => words.push(alloc, word)?,
                None => return Ok(None),
            }
        }
        Ok(Some(words))
    }

    /// Reads a word in quoted form and the space after it.
    fn word(&mut self, alloc: Global) -> Result<Option<Bytes>, AllocError>
        ensures text { IfOk result (λ found. IfSome found (λ word. HasRead (quoted word ++ 32 ∷ []) self.old self.new)) }
        ensures typed { IfOk result (λ found. IfSome found (λ word. are_bytes word ≡ true)) }
    {
        let Some(word) = self.quoted(alloc)? else {
            return Ok(None);
        };
        if !self.pass(b" ") {
            return Ok(None);
        }
        Ok(Some(word))
    }

    /// Reads a reply to the end of the line: the values that were pushed and the answer, with a semicolon between.
    pub(crate) fn reply(&mut self, alloc: Global) -> Result<Option<Reply>, AllocError>
        ensures text { IfOk result (λ found. IfSome found (λ reply. HasRead (reply_text reply) self.old self.new)) }
        ensures typed { IfOk result (λ found. IfSome found IsReply) }
        ensures shallow { IfOk result (λ found. IfSome found (λ reply. (are_shallow reply.pushed ≡ true) × (nat_le (value_depth reply.answer) max_depth ≡ true))) }
    {
        let mut pushed = Items::new(alloc);
        'values: loop {
            let Some(value) = self.value(alloc, REPLY_DEPTH)? else {
                return Ok(None);
            };
            if self.is_empty() {
                return Ok(Some(Reply {
                    pushed,
                    answer: value,
                }));
            }
            if !self.pass(b" ; ") {
                return Ok(None);
            }
            pushed.push(value)?;
        }
    }
}
