//! Macro calls around a statement, and what stands for names there.

ghost use Rattle.std.specs.Prelude.{◌≡◌, ◌<◌, ◌≤◌, List, option_map, IfSome};
ghost use Rattle.tla_token.specs.declared.place.Place.{Place};
ghost use Rattle.tla_tree.specs.Tree.{Tree, graft};
ghost use Rattle.tla_tree.specs.Pool.{at, trees_at};
ghost use Rattle.pcal_tree.specs.InMemory.{past_numbers};
ghost use Rattle.pcal_tree.specs.Run.{arguments as arguments_put};
ghost use Rattle.expansion_size.specs.FramesIn.{put_by, past_frames, calls_around, found_tree};

use tla_tree::{Name, NodeId, PlacedName};

/// The calls of macros that a statement is in, the innermost first.
#[derive(Clone, Copy)]
pub enum Frames<'a> {
    /// It is in no macro.
    Outside,
    /// The parameters and arguments of a call, and the calls around it.
    Called(&'a [PlacedName], &'a [NodeId], &'a Frames<'a>),
}

/// What stands for a name.
#[derive(Clone, Copy)]
pub struct Found<'a> {
    /// The argument of a call.
    pub argument: NodeId,
    /// The calls around that call.
    pub around: &'a Frames<'a>,
}

// The argument that stands for a name, if it is a parameter that has one.
fn argument(params: &[PlacedName], arguments: &[NodeId], name: &Name) -> Option<NodeId>
    ensures tree { (ts : List Tree) (p : Place) → option_map (at ts) result ≡ arguments_put params.now (trees_at ts arguments.now) name.now p }
    ensures within { IfSome result (λ e. e < past_numbers arguments.now) }
{
    for i in 0..params.len() {
        if i >= arguments.len() {
            return None;
        }
        let param = &params[i];
        if param.name.is(name) {
            return Some(arguments[i]);
        }
    }
    None
}

/// What stands for a name in these calls, the innermost first.
pub fn lookup<'a>(frames: &'a Frames<'a>, name: &Name) -> Option<Found<'a>>
    ensures tree { (ts : List Tree) (p : Place) → option_map (found_tree ts) result ≡ put_by ts frames.now name.now p }
    ensures within { IfSome result (λ f. f.argument < past_frames frames.now) }
    ensures inner { IfSome result (λ f. past_frames f.around.now ≤ past_frames frames.now) }
    ensures fewer { IfSome result (λ f. calls_around f.around.now < calls_around frames.now) }
{
    match frames {
        Frames::Outside => None,
        Frames::Called(params, arguments, around) => match argument(params, arguments, name) {
            Some(argument) => Some(Found { argument, around }),
            None => lookup(around, name),
        },
    }
}
