//! The names whose uses may matter: definitions that read a variable, parameters of macros, and `self`.

ghost use Rattle.std.specs.Prelude.{◌≡◌, IfOk, OnOk};
ghost use Rattle.pcal_tree.proofs.SetLaws.{Same};
ghost use Rattle.read_rules.specs.Joins.{Joins};
ghost use Rattle.read_rules.specs.WantedIn.{names_in, params_in, wants};

use crate::definitions::Reads;
use crate::names::Names;
use crate::refusals::is_self;
use pcal_tree::algorithm::Macro;
use std::alloc::{AllocError, Global};
use tla_tree::{Name, PlacedName};

/// What tells whether uses of a name may matter.
#[derive(Drop)]
pub struct Wanted {
    /// The variables that definitions read.
    pub reads: Reads,
    /// The parameters of macros.
    pub names: Names,
}

impl Wanted {
    /// Whether uses of a name may matter.
    pub fn has(&self, name: &Name) -> bool
        ensures { result ≡ wants self.now name.now }
    {
        is_self(name) || self.names.has(name) || self.reads.has_some(name)
    }
}

// The names of parameters too.
fn add_params(names: &mut Names, params: &[PlacedName]) -> Result<(), AllocError>
    ensures { OnOk result (Joins names.old names.new (names_in params.now)) }
{
    for param in params {
        names.add(&param.name)?;
    }
    Ok(())
}

// Those of several macros.
fn add_all_params(names: &mut Names, macros: &[Macro]) -> Result<(), AllocError>
    ensures { OnOk result (Joins names.old names.new (params_in macros.now)) }
{
    for one in macros {
        add_params(names, &one.params)?;
    }
    Ok(())
}

/// The parameters of macros.
///
/// # Errors
///
/// Only for want of memory.
pub fn all_params(alloc: Global, macros: &[Macro]) -> Result<Names, AllocError>
    ensures { IfOk result (λ r. Same r (params_in macros.now)) }
{
    let mut names = Names::new(alloc);
    add_all_params(&mut names, macros)?;
    Ok(names)
}
