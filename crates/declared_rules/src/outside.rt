//! What is outside: reserved names there, variables that are declared there, and names that those of the algorithm may not be.

ghost use Rattle.std.specs.Prelude.{◌≡◌, ◌∷◌, [], List, map, codes, OnOk};
ghost use Rattle.std.specs.List.{flat_map};
ghost use Rattle.tla_token.specs.Signs.{is_among as is_among_of};
ghost use Rattle.tla_tree.specs.Tree.{Tree};
ghost use Rattle.pcal_tree.specs.Outside.{unit_names};
ghost use Rattle.module_outside.specs.Passing.{passed_seen};
ghost use Rattle.module_outside.specs.WholeAt.{outside_at};
ghost use Rattle.declared_rules.specs.Finding.{Joins, Adds, AddsNames};
ghost use Rattle.declared_rules.specs.Titles.{unit_offences, passed_offences, constant_parts, read_parts, defined_names, macro_names, procedure_names, process_names, main_names, kept_titles, other_titles, title_offences, outside_offences};

use crate::found::Found;
use crate::outside_words::bind_units;
use module_outside::definition::ReadDefinition;
use module_outside::outside::Outside;
use module_outside::passed::Passed;
use pcal_tree::algorithm::{Algorithm, Definition, Macro, Main, Procedure, Process};
use std::alloc::AllocError;
use tla_token::own::is_own;
use tla_token::word::is_among;
use tla_token::{Place, Rule};
use tla_tree::{Name, PlacedName};

/// The words with which units begin that declare variables.
static DECLARING: [&str; 2] = ["VARIABLE", "VARIABLES"];

// Whether a unit that begins with this word declares variables.
fn is_declaring(word: &[u8]) -> bool
    ensures { result ≡ is_among_of (codes "VARIABLE" ∷ codes "VARIABLES" ∷ []) word.now }
{
    is_among(&DECLARING, word)
}

impl Found {
    // A name of a unit that is passed on.
    fn passed_name(&mut self, name: &Name, place: Place)
        ensures { (ts : List Tree) → Joins ts self.old self.new (passed_offences place name.now) }
    {
        self.offence(is_own(name.bytes()), Rule::Reserved, place);
    }

    // All of them.
    fn passed_names(&mut self, names: &[Name], place: Place)
        ensures { (ts : List Tree) → Joins ts self.old self.new (flat_map (passed_offences place) names.now) }
    {
        for name in names {
            self.passed_name(name, place);
        }
    }

    // A unit that is passed on.
    fn unit(&mut self, unit: &Passed)
        ensures { (ts : List Tree) → Joins ts self.old self.new (unit_offences (passed_seen unit.now)) }
    {
        self.passed_names(&unit.names, unit.place);
        self.offence(
            is_declaring(unit.keyword.bytes()),
            Rule::OutsideVariable,
            unit.place,
        );
    }

    // Units that are passed on.
    fn units(&mut self, list: &[Passed])
        ensures { (ts : List Tree) → Joins ts self.old self.new (flat_map unit_offences (map passed_seen list.now)) }
    {
        for unit in list {
            self.unit(unit);
        }
    }

    // Constants.
    fn constants(&mut self, names: &[PlacedName])
        ensures { (ts : List Tree) → Adds ts self.old self.new (flat_map constant_parts names.now) }
    {
        for name in names {
            self.declares(name);
        }
    }

    // Definitions that were read.
    fn read_titles(&mut self, list: &[ReadDefinition])
        ensures { (ts : List Tree) → Adds ts self.old self.new (flat_map read_parts list.now) }
    {
        for definition in list {
            self.declares(&definition.title);
        }
    }

    // ---- titles

    // The names of definitions.
    fn defined(&mut self, list: &[Definition]) -> Result<(), AllocError>
        ensures { OnOk result (AddsNames self.old self.new (defined_names list.now)) }
    {
        for definition in list {
            self.once(&definition.name)?;
        }
        Ok(())
    }

    // Those of macros.
    fn macro_titles(&mut self, list: &[Macro]) -> Result<(), AllocError>
        ensures { OnOk result (AddsNames self.old self.new (macro_names list.now)) }
    {
        for one in list {
            self.once(&one.name)?;
        }
        Ok(())
    }

    // Those of procedures.
    fn procedure_titles(&mut self, list: &[Procedure]) -> Result<(), AllocError>
        ensures { OnOk result (AddsNames self.old self.new (procedure_names list.now)) }
    {
        for procedure in list {
            self.once(&procedure.name)?;
        }
        Ok(())
    }

    // Those of processes.
    fn process_titles(&mut self, list: &[Process]) -> Result<(), AllocError>
        ensures { OnOk result (AddsNames self.old self.new (process_names list.now)) }
    {
        for process in list {
            self.once(&process.name)?;
        }
        Ok(())
    }

    // Those of what runs.
    fn main_titles(&mut self, main: &Main) -> Result<(), AllocError>
        ensures { OnOk result (AddsNames self.old self.new (main_names main.now)) }
    {
        match main {
            Main::Alone(_) => Ok(()),
            Main::Processes(list) => self.process_titles(list),
        }
    }

    // Those of globals and definitions.
    fn kept(&mut self, algorithm: &Algorithm) -> Result<(), AllocError>
        ensures { OnOk result (AddsNames self.old self.new (kept_titles algorithm.now)) }
    {
        self.declared(&algorithm.globals)?;
        self.defined(&algorithm.definitions)
    }

    // Those of macros, procedures and processes.
    fn others(&mut self, algorithm: &Algorithm) -> Result<(), AllocError>
        ensures { OnOk result (AddsNames self.old self.new (other_titles algorithm.now)) }
    {
        self.macro_titles(&algorithm.macros)?;
        self.procedure_titles(&algorithm.procedures)?;
        self.main_titles(&algorithm.main)
    }

    /// All titles: each among those before it, and those of globals and definitions among the names outside.
    ///
    /// # Errors
    ///
    /// Only for want of memory.
    pub fn titles(&mut self, algorithm: &Algorithm, outside: &Outside) -> Result<(), AllocError>
        ensures { OnOk result ((ts : List Tree) → Joins ts self.old self.new (title_offences self.old.modules (unit_names (outside_at ts outside.now)) (kept_titles algorithm.now) (other_titles algorithm.now))) }
    {
        self.seen.truncate(0);
        self.kept(algorithm)?;
        self.others(algorithm)?;
        self.seen.truncate(0);
        bind_units(&mut self.seen, outside)?;
        self.kept(algorithm)
    }

    /// What is outside.
    pub fn outside(&mut self, outside: &Outside)
        ensures { (ts : List Tree) → Joins ts self.old self.new (outside_offences self.old.modules (outside_at ts outside.now)) }
    {
        self.constants(&outside.constants);
        self.read_titles(&outside.definitions);
        self.units(&outside.opaque);
    }
}
