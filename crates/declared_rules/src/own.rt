//! Names that the translation has.

ghost use Rattle.std.specs.Prelude.{◌≡◌, ◌∷◌, ◌||◌, [], codes};
ghost use Rattle.module_outside.specs.ModulesIn.{is_standard_in};
ghost use Rattle.tla_token.specs.Signs.{is_among as is_among_of};
ghost use Rattle.tla_token.specs.Words.{is_own as is_own_of};

use module_outside::modules::Modules;
use tla_token::own::is_own;
use tla_token::word::is_among;

/// The labels that the translation has.
static ENDS: [&str; 2] = ["Done", "Error"];

/// Whether the translation has this label.
pub fn is_end(word: &[u8]) -> bool
    ensures { result ≡ is_among_of (codes "Done" ∷ codes "Error" ∷ []) word.now }
{
    is_among(&ENDS, word)
}

/// Whether it is one of these, or a name of a standard module.
pub fn is_reserved(modules: Modules, word: &[u8]) -> bool
    ensures { result ≡ (is_own_of word.now || is_standard_in modules word.now) }
{
    is_own(word) || modules.is_standard(word)
}
