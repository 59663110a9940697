//! What a call offends, by what is kept of what is called.

ghost use Rattle.std.specs.Prelude.{◌≡◌, ◌∷◌, [], List, Some, None, OnOk, IfSome, IfNone};
ghost use Rattle.std.specs.List.{flat_map};
ghost use Rattle.tla_tree.specs.Tree.{Word, Trees};
ghost use Rattle.pcal_tree.specs.OffencesRebind.{naming, rebound_all, any_name, piece_names, Calls as PureCalls, putting_in};
ghost use Rattle.pcal_tree.specs.laws.MacroBindings.{offences_where};
ghost use Rattle.declared_rules.specs.Telling.{binding_of, told, Adds};
ghost use Rattle.declared_rules.specs.Gathering.{list_of, lists_of, each_pieces};
ghost use Rattle.declared_rules.specs.Keeping.{argument_of, Knows};

use crate::bind_walk::Walk;
use crate::binding::Binding;
use crate::kept::Keeps;
use crate::pieces::Piece;
use crate::sight::Sight;
use algorithm_limits::order::least;
use std::alloc::AllocError;
use tla_tree::{Name, PlacedName};

// What the argument brings that is put in for a name.
fn argument<'a>(params: &[PlacedName], args: &'a [Vec<Piece>], name: &Name) -> Option<&'a [Piece]>
    ensures some { IfSome result (λ a. argument_of params.now (lists_of args.now) name.now ≡ Some (list_of a.now)) }
    ensures none { IfNone result (argument_of params.now (lists_of args.now) name.now ≡ None) }
{
    for i in 0..params.len() {
        if i >= args.len() {
            return None;
        }
        let param = &params[i];
        if param.name.is(name) {
            return Some(&args[i]);
        }
    }
    None
}

impl Walk {
    // All that an argument brings.
    fn pieces(&mut self, sight: &Sight, list: &[Piece]) -> Result<(), AllocError>
        ensures { OnOk result (Adds sight.now any_name self.old self.new (λ ms r. rebound_all ms r (flat_map (piece_names r) (list_of list.now)))) }
    {
        for piece in list {
            match piece {
                Piece::Binds(name) => self.name(sight, name)?,
                Piece::Frees(name) => self.standing(sight, name)?,
            }
        }
        Ok(())
    }

    // All that an argument brings where a name is bound, and no other matters.
    fn pieces_under(
        &mut self,
        sight: &Sight,
        list: &[Piece],
        under: &Name,
    ) -> Result<(), AllocError>
        ensures { OnOk result (Adds sight.now any_name self.old self.new (λ ms r. rebound_all ms (naming (under.now ∷ []) []) (flat_map (piece_names r) (list_of list.now)))) }
    {
        for piece in list {
            match piece {
                Piece::Binds(name) => {
                    let same = under.is(&name.name);
                    self.offence(sight.rebinds(same, &name.name), name.place);
                }
                Piece::Frees(name) => self.beneath(sight, name, under)?,
            }
        }
        Ok(())
    }

    // What is kept of a text, where arguments are put in.
    fn put_one(
        &mut self,
        sight: &Sight,
        params: &[PlacedName],
        args: &[Vec<Piece>],
        binding: &Binding,
    ) -> Result<(), AllocError>
        ensures { OnOk result ((ts : Trees) → lists_of args.now ≡ each_pieces ts → Adds sight.now any_name self.old self.new (λ ms r. offences_where ms (putting_in params.now ts r r) (binding_of binding.now))) }
    {
        match binding {
            Binding::Bound(name) => self.name(sight, name),
            Binding::Standing(name) => match argument(params, args, name) {
                Some(list) => self.pieces(sight, list),
                None => self.standing(sight, name),
            },
            Binding::Beneath(name, under) => match argument(params, args, name) {
                Some(list) => self.pieces_under(sight, list, under),
                None => self.beneath(sight, name, under),
            },
        }
    }

    /// What was found in a text, where arguments that bring these are put in.
    ///
    /// # Errors
    ///
    /// Only for want of memory.
    pub fn put(
        &mut self,
        sight: &Sight,
        params: &[PlacedName],
        found: &Walk,
        args: &[Vec<Piece>],
    ) -> Result<(), AllocError>
        ensures { OnOk result ((ts : Trees) → lists_of args.now ≡ each_pieces ts → Adds sight.now any_name self.old self.new (λ ms r. told ms found.now (putting_in params.now ts r r))) }
    {
        self.first = least(self.first, found.first);
        let list = found.free.as_slice();
        for binding in list {
            self.put_one(sight, params, args, binding)?;
        }
        Ok(())
    }

    /// A call of what is kept by a name, with these arguments.
    ///
    /// # Errors
    ///
    /// Only for want of memory.
    pub fn called(
        &mut self,
        sight: &Sight,
        keeps: &Keeps,
        name: &Name,
        args: &[Vec<Piece>],
    ) -> Result<(), AllocError>
        ensures { OnOk result ((C : List Word → PureCalls) (ts : Trees) → Knows sight.now keeps.now C → lists_of args.now ≡ each_pieces ts → Adds sight.now any_name self.old self.new (λ ms r. C ms r name.now ts)) }
    {
        match keeps.get(name) {
            Some(kept) => self.put(sight, &kept.params, &kept.found, args),
            None => Ok(()),
        }
    }
}
