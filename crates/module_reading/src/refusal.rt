//! Why a text is not read as a module.

ghost use Rattle.std.specs.Prelude.{◌≡◌};
ghost use Rattle.tla_token.specs.declared.rule.Stop.TheVariants as stop;
ghost use Rattle.region_reading.specs.ReadAnswer.{beginning};
ghost use Rattle.module_reading.specs.Translated.{stop_of};

use expr_nodes::cursor::Halt;
use tla_token::{Place, Refusal, Rule, Stop};

/// The text is refused by this rule, at its beginning.
pub fn refused(rule: Rule) -> Stop
    ensures { result ≡ stop.Refused (record { rule = rule; place = beginning }) }
{
    Stop::Refused(Refusal {
        rule,
        place: Place { line: 1, col: 1 },
    })
}

/// Reading its tokens stopped for this.
pub fn stopped(halt: Halt) -> Stop
    ensures { result ≡ stop_of halt }
{
    match halt {
        Halt::Memory => Stop::Memory,
        Halt::Refused(rule, _) => refused(rule),
    }
}
