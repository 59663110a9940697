//! The macro that is called.

ghost use Rattle.std.specs.Prelude.{◌≡◌, ◌<◌, List, [], length, take, get_or, IfSome, IfNone};
ghost use Rattle.tla_tree.specs.Tree.{Tree, Trees, Graft};
ghost use Rattle.pcal_tree.specs.declared.algorithm.Macro as declared_macro;
ghost use Rattle.expansion_size.specs.Budget.{calls};
ghost use Rattle.expansion_size.specs.FramesIn.{newest_first, after_body};

use pcal_tree::algorithm::Macro;
use tla_tree::Name;

/// The number of the newest macro of a name: a call of it is after its body, by the macros before it.
pub fn newest(macros: &[Macro], name: &Name) -> Option<usize>
    ensures none { IfNone result ((ts : List Tree) (g : Graft) (us : Trees) → calls [] g name.now us ≡ calls (newest_first ts macros.now) g name.now us) }
    ensures some { IfSome result (λ i. (ts : List Tree) (g : Graft) (us : Trees) (o : declared_macro.Macro) → o ≡ get_or macros.now i o → after_body ts (take i macros.now) o g us ≡ calls (newest_first ts macros.now) g name.now us) }
    ensures within { IfSome result (λ i. i < length macros.now) }
{
    for i in 0..macros.len() {
        let at = macros.len() - 1 - i;
        let one = &macros[at];
        if one.name.name.is(name) {
            return Some(at);
        }
    }
    None
}
