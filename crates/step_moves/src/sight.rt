//! What names outside of definitions stand for in a state.

ghost use Rattle.step_moves.specs.Sights.{seen_value};

use tla_tree::Name;
use tla_value::names::Names;
use tla_value::state::State;
use tla_value::value::Value;

/// The values of variables, and of constants.
#[derive(Clone, Copy)]
pub struct Sight<'a> {
    /// Those of the variables that are seen.
    pub variables: &'a State,
    /// Those of constants, where no variable has the name.
    pub constants: &'a State,
}

impl<'a> Names for Sight<'a> {
    ghost look = { seen_value };

    fn value(&self, name: &Name) -> Option<&Value> {
        match self.variables.get(name) {
            Some(v) => Some(v),
            None => self.constants.get(name),
        }
    }
}
