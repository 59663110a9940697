//! The names that a routine declares, and what stands for them.

ghost use Rattle.std.specs.Prelude.{◌≡◌, ◌++◌, IfOk, OnOk};
ghost use Rattle.tla_token.specs.Signs.{is_among};
ghost use Rattle.tla_tree.specs.Tree.{Word};
ghost use Rattle.module_tree.specs.Formulas.{self as self_name};
ghost use Rattle.pcal_tree.specs.Algorithm.{Routine, locals as locals_of, declares};
ghost use Rattle.pcal_tree.specs.Program.{Program};
ghost use Rattle.name_bits.specs.NamesIn.{names_in};
ghost use Rattle.written_names.specs.Units.{naming_of};
ghost use Rattle.action_builder.specs.OwnVariables.{is_own_variable};
ghost use Rattle.draft.specs.RoutineNames.{words_of};
ghost use Rattle.running.specs.PlacesOf.{IsPlaces};

use crate::places::Places;
use name_bits::{Bits, Order};
use pcal_tree::algorithm::Declaration;
use prime_subst::{Local, Own};
use std::alloc::{AllocError, Global};
use tla_tree::{Name, NameList};
use written_names::naming::Naming;

// Adds the names of declarations.
fn add_names(list: &[Declaration], into: &mut NameList) -> Result<(), AllocError>
    ensures { OnOk result (into.new ≡ into.old ++ words_of list.now) }
{
    for one in list {
        into.push(one.name.name.copied()?)?;
    }
    Ok(())
}

/// The names of parameters and variables, each once.
///
/// # Errors
///
/// Only for want of memory.
pub fn declared_names(
    alloc: Global,
    params: &[Declaration],
    variables: &[Declaration],
) -> Result<Order, AllocError>
    ensures { IfOk result (λ r. (x : Word) → is_among r x ≡ is_among (words_of params.now ++ words_of variables.now) x) }
{
    let mut names = NameList::new(alloc);
    add_names(params, &mut names)?;
    add_names(variables, &mut names)?;
    Order::new(alloc, names.as_slice())
}

/// What stands for the names of the routine of this number, which declares these; the others are of a draft.
pub fn places_of<'a>(
    number: usize,
    names: &'a Order,
    naming: &'a Naming,
    order: &'a Order,
    own: &'a Bits,
    this: &'a Name,
) -> Places<'a>
    ensures { (P : Program) (u : Routine) → u.number ≡ number → ((x : Word) → is_among names.now x ≡ declares (locals_of u) x) → naming_of naming.now ≡ P.naming → ((x : Word) → is_among (names_in order.now own.now) x ≡ is_own_variable P x) → this.now ≡ self_name → IsPlaces result P u }
{
    Places {
        local: Local {
            unit: number,
            locals: names,
            naming,
        },
        own: Own { own, order, this },
    }
}
