//! The macro that is called.

ghost use Rattle.std.specs.Prelude.{◌≡◌, ◌<◌, List, [], length, take, get_or, IfSome, IfNone};
ghost use Rattle.tla_tree.specs.Tree.{Tree, Trees};
ghost use Rattle.pcal_tree.specs.declared.algorithm.Macro as declared_macro;
ghost use Rattle.pcal_tree.specs.Algorithm as pure;
ghost use Rattle.pcal_tree.specs.Expand.{written_out};
ghost use Rattle.expansion_size.specs.FramesIn.{newest_first};
ghost use Rattle.expansion.specs.Written.{body_written};

use pcal_tree::algorithm::Macro;
use tla_tree::Name;

/// The number of the newest macro of a name: for a call of it its body is written, by the macros before it.
pub fn newest(macros: &[Macro], name: &Name) -> Option<usize>
    ensures none { IfNone result ((ts : List Tree) (at : pure.Span) (us : Trees) → written_out [] at name.now us ≡ written_out (newest_first ts macros.now) at name.now us) }
    ensures some { IfSome result (λ i. (ts : List Tree) (at : pure.Span) (us : Trees) (o : declared_macro.Macro) → o ≡ get_or macros.now i o → body_written ts (take i macros.now) o us ≡ written_out (newest_first ts macros.now) at name.now us) }
    ensures within { IfSome result (λ i. i < length macros.now) }
{
    for i in 0..macros.len() {
        let at = macros.len() - 1 - i;
        let one = &macros[at];
        if one.name.name.is(name) {
            return Some(at);
        }
    }
    None
}
