//! What the calls of a core are as a block. The body is empty: the clause is the law.
ghost use Rattle.block_core.specs.Cores.{BlocksBegin};

/// The calls that a core of a lawful plan has had begin its block, are a whole one where nothing is left to say, and
/// would begin one with another answer to the last where that isn't a listed one.
pub fn blocks_begin()
    ensures { BlocksBegin }
{}
