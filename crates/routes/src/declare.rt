//! A declaration: a binding goes into its exchange's set, or out of it.
ghost use Rattle.std.specs.Prelude.{◌≡◌, ◌∷◌, [], ℕ, IfOk, None};
ghost use Rattle.block_core.specs.Cores.{core_end};
ghost use Rattle.block_laws.specs.Rows.{IsLawfulPlan};
ghost use Rattle.command_blocks.specs.Answers.{number_of};
ghost use Rattle.command_blocks.specs.EnvelopeTexts.{plain_setting};
ghost use Rattle.command_blocks.specs.Scripts.{script_of};
ghost use Rattle.queue_keys.specs.Bindings.{member};
ghost use Rattle.routes.specs.Declares.{HasDeclaring, change_word, declaration_plan, declare_left, declared_by};
ghost use Rattle.wire_grammar.specs.Fits.{IsWithinLimits};

use crate::declaration::{Change, Declaration};
use block_core::{BlockCore, Progress, Stage};
use block_words::three_words;
use command_blocks::answer::{integer, is_unit};
use lookups::{binding_key, member};
use std::alloc::{AllocError, Global};
use wire_values::{Value, Words};

/// A declaration, one command: SADD or SREM of the binding's member.
pub type DeclareCore = BlockCore<DeclareStage, Declared>;

/// The end of a declaration: whether the exchange's set changed, which it doesn't where the binding was there already, or
/// was not there to be taken out.
#[derive(Clone, Copy, Debug, Drop)]
pub struct Declared {
    pub changed: bool,
}

/// The one command of a declaration.
#[derive(Debug, Drop)]
pub struct DeclareStage {
    pub(crate) declaration: Declaration,
}

impl Stage for DeclareStage {
    ghost use Rattle.std.specs.Prelude.{◌≡◌, [], refl};
    ghost use Rattle.routes.specs.Declares.{TellsDeclare, declare_stage_left};

    type End = Declared;

    ghost left = { declare_stage_left };

    ghost had = { λ plan calls stage. calls ≡ [] };

    ghost tells = { λ plan calls end. TellsDeclare calls end };

    fn words(&self, alloc: Global, _at: u64) -> Result<Words, AllocError> {
        declare_words(alloc, &self.declaration)
    }

    fn answered(
        self,
        _alloc: Global,
        answer: &Value,
    ) -> Result<Progress<DeclareStage, Declared>, AllocError> {
        Ok(counted(answer))
    }

    ghost says = { λ stage. refl };
}

/// The block of this declaration; takes no memory.
pub fn declare_core(declaration: Declaration) -> DeclareCore
    ensures left { (s p : ℕ) → declare_left result ≡ script_of plain_setting s p (declaration_plan declaration) }
    ensures end { core_end result ≡ None }
    ensures lawful { (s n : ℕ) → IsLawfulPlan plain_setting s n (declaration_plan declaration) }
    ensures traced { (s p : ℕ) → HasDeclaring s p (declaration_plan declaration) [] result }
{
    // Its queue has a lawful name.
    let _queue = declaration.queue.bytes();
    BlockCore::new(DeclareStage { declaration })
}

/// What an answer to its command brings.
fn counted(answer: &Value) -> Progress<DeclareStage, Declared>
    ensures { result ≡ declared_by (number_of answer.now) }
{
    match integer(answer) {
        Some(count) => Progress::Over(Declared {
            changed: is_unit(count),
        }),
        None => Progress::Refused,
    }
}

/// The words of its command.
fn declare_words(alloc: Global, declaration: &Declaration) -> Result<Words, AllocError>
    ensures words { IfOk result (λ words. let d = declaration.now in words
        ≡ change_word d.change ∷ plain_setting.binding d.exchange ∷ member d.routing_key d.pattern d.queue ∷ []) }
    ensures limits { IfOk result (λ words. IsWithinLimits words) }
{
    let routing_key = declaration.routing_key.as_slice();
    let pattern = declaration.pattern.as_slice();
    let text = member(alloc, routing_key, pattern, declaration.queue.bytes())?;
    let key = binding_key(alloc, declaration.exchange.as_slice())?;
    let name = change_word(declaration.change);
    three_words(alloc, name, key.as_slice(), text.as_slice())
}

/// The name of the command that changes an exchange's set so.
fn change_word(change: Change) -> &'static [u8]
    ensures { result.now ≡ change_word change }
{
    match change {
        Change::Add => b"SADD",
        Change::Remove => b"SREM",
    }
}
