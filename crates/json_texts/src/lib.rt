//! A law of JSON: the strings and keys of a tree that was read from UTF-8 are UTF-8.
#![tactic(auto)]

ghost use Rattle.json_texts.specs.Trees.{ReadsTexts};

/// Each string and each key of a tree that was read from UTF-8 is UTF-8.
pub fn reads_texts()
    ensures { ReadsTexts }
{}
