//! A walk through an algorithm: each part is looked at, each expression is marked, and names that are taken from the start are kept.

ghost use Rattle.std.specs.Prelude.{◌∷◌, ◌++◌, [], List, map, OnOk};
ghost use Rattle.std.specs.List.{flat_map};
ghost use Rattle.tla_tree.specs.Tree.{Tree};
ghost use Rattle.pcal_tree.specs.InMemory.{branches_at};
ghost use Rattle.declared_rules.specs.Parts.{bound, takes, declares, labels, prints, stacks, bind_name, declaration_names, in_branches, expr_parts, assignment_parts, bind_parts, simple_parts, body_parts, start_parts, declaration_parts, global_parts, definition_parts, macro_parts, procedure_parts, process_parts, main_parts, parts_of_algorithm};
ghost use Rattle.declared_rules.specs.Walking.{Adds, AddsStmt};

use crate::found::Found;
use crate::met::Met;
use pcal_tree::algorithm::{
    Algorithm, Assignment, Bind, Declaration, Definition, Macro, Main, Procedure, Process, Simple,
    Start, Stmt,
};
use std::alloc::AllocError;
use tla_token::{Place, Rule};
use tla_tree::{NodeId, PlacedName};

/// What was found, and the names that were met.
#[derive(Drop)]
pub struct Walked {
    pub found: Found,
    pub met: Met,
}

impl Walked {
    // A name that is declared.
    fn declares(&mut self, name: &PlacedName)
        ensures { (ts : List Tree) → Adds ts self.old self.new (declares name.now ∷ []) }
    {
        self.found.declares(name);
    }

    // One that is taken from the start too.
    fn keeps(&mut self, name: &PlacedName) -> Result<(), AllocError>
        ensures { OnOk result ((ts : List Tree) → Adds ts self.old self.new (declares name.now ∷ takes (name.now ∷ []) ∷ [])) }
    {
        self.found.declares(name);
        self.met.name(&name.name)
    }

    // A label.
    fn label(&mut self, name: &PlacedName)
        ensures { (ts : List Tree) → Adds ts self.old self.new (labels name.now ∷ []) }
    {
        self.found.label(name);
    }

    // The names of a list, which are taken from the start.
    fn params(&mut self, names: &[PlacedName]) -> Result<(), AllocError>
        ensures { OnOk result ((ts : List Tree) → Adds ts self.old self.new (bound names.now ∷ takes names.now ∷ [])) }
    {
        self.found.list(names)?;
        self.met.names(names)
    }

    // Those of a `with`, which are too.
    fn bind_list(&mut self, binds: &[Bind]) -> Result<(), AllocError>
        ensures { OnOk result ((ts : List Tree) → Adds ts self.old self.new (bound (map bind_name binds.now) ∷ takes (map bind_name binds.now) ∷ [])) }
    {
        self.found.bind_list(binds)?;
        self.met.bind_names(binds)
    }

    // Those of parameters and variables.
    fn declared_list(
        &mut self,
        params: &[Declaration],
        variables: &[Declaration],
    ) -> Result<(), AllocError>
        ensures { OnOk result ((ts : List Tree) → Adds ts self.old self.new (bound (declaration_names params.now ++ declaration_names variables.now) ∷ [])) }
    {
        self.found.declared_list(params, variables)
    }

    // An expression.
    fn expr(&mut self, e: NodeId)
        ensures { (ts : List Tree) → Adds ts self.old self.new (expr_parts ts e) }
    {
        self.found.expr(e);
        self.met.mark(e);
    }

    // Expressions.
    fn exprs(&mut self, es: &[NodeId])
        ensures { (ts : List Tree) → Adds ts self.old self.new (flat_map (expr_parts ts) es.now) }
    {
        for e in es {
            self.expr(*e);
        }
    }

    // Left and right sides.
    fn assignments(&mut self, list: &[Assignment])
        ensures { (ts : List Tree) → Adds ts self.old self.new (flat_map (assignment_parts ts) list.now) }
    {
        for assignment in list {
            self.expr(assignment.left);
            self.expr(assignment.right);
        }
    }

    // The expression of one that a `with` names.
    fn bind(&mut self, bind: &Bind)
        ensures { (ts : List Tree) → Adds ts self.old self.new (bind_parts ts bind.now) }
    {
        match bind {
            Bind::Among(_, e) => self.expr(*e),
            Bind::Is(_, e) => self.expr(*e),
        }
    }

    // Those of all that a `with` names.
    fn binds(&mut self, list: &[Bind])
        ensures { (ts : List Tree) → Adds ts self.old self.new (flat_map (bind_parts ts) list.now) }
    {
        for bind in list {
            self.bind(bind);
        }
    }

    // A statement that needs TLC.
    fn prints(&mut self, place: Place)
        ensures { (ts : List Tree) → Adds ts self.old self.new (prints place ∷ []) }
    {
        let extended = self.found.modules.tlc;
        self.found.offence(!extended, Rule::NeedsModule, place);
    }

    // A procedure, which needs a stack.
    fn stacks(&mut self, place: Place)
        ensures { (ts : List Tree) → Adds ts self.old self.new (stacks place ∷ []) }
    {
        let extended = self.found.modules.sequences;
        self.found.offence(!extended, Rule::NeedsModule, place);
    }

    // The name of a procedure.
    fn stacked(&mut self, name: &PlacedName)
        ensures { (ts : List Tree) → Adds ts self.old self.new (declares name.now ∷ stacks name.now.place ∷ []) }
    {
        self.declares(name);
        self.stacks(name.place);
    }

    // A statement with none in it, at its place.
    fn simple(&mut self, place: Place, simple: &Simple)
        ensures { (ts : List Tree) → Adds ts self.old self.new (simple_parts ts place simple.now) }
    {
        match simple {
            Simple::Assign(list) => self.assignments(list),
            Simple::Await(e) => self.expr(*e),
            Simple::Print(e) => {
                self.expr(*e);
                self.prints(place);
            }
            Simple::Assert(e) => {
                self.expr(*e);
                self.prints(place);
            }
            Simple::Skip => {}
            Simple::Goto(_) => {}
            Simple::Macro(_, es) => self.exprs(es),
            Simple::Call(_, es) => self.exprs(es),
            Simple::Return => {}
        }
    }

    // A first value.
    fn start(&mut self, start: &Start)
        ensures { (ts : List Tree) → Adds ts self.old self.new (start_parts ts start.now) }
    {
        match start {
            Start::Unset => {}
            Start::Equals(e) => self.expr(*e),
            Start::Among(e) => self.expr(*e),
        }
    }

    // A label or a statement.
    #[cycle(bodies)]
    fn stmt(&mut self, stmt: &Stmt) -> Result<(), AllocError>
        ensures { OnOk result ((ts : List Tree) → AddsStmt ts stmt.now self.old self.new) }
    {
        match stmt {
            Stmt::Label(name, _) => {
                self.label(name);
                Ok(())
            }
            Stmt::Simple(span, simple) => {
                self.simple(span.first, simple);
                Ok(())
            }
            Stmt::If(_, e, then, otherwise) => {
                self.expr(*e);
                self.body(then)?;
                self.body(otherwise)
            }
            Stmt::Either(_, list) => self.branches(list),
            Stmt::With(_, binds, body) => {
                self.bind_list(binds)?;
                self.binds(binds);
                self.body(body)
            }
            Stmt::While(_, e, body) => {
                self.expr(*e);
                self.body(body)
            }
        }
    }

    // Branches.
    #[cycle(bodies)]
    fn branches(&mut self, list: &[Vec<Stmt>]) -> Result<(), AllocError>
        ensures { OnOk result ((ts : List Tree) → Adds ts self.old self.new (in_branches (branches_at ts list.now))) }
    {
        for i in 0..list.len() {
            self.body(&list[i])?;
        }
        Ok(())
    }

    // A list of statements. It calls itself as deep as statements are in statements.
    #[cycle(bodies)]
    fn body(&mut self, stmts: &[Stmt]) -> Result<(), AllocError>
        ensures { OnOk result ((ts : List Tree) → Adds ts self.old self.new (body_parts ts stmts.now)) }
    {
        for stmt in stmts {
            self.stmt(stmt)?;
        }
        Ok(())
    }

    // First values of variables and parameters.
    fn starts(&mut self, list: &[Declaration])
        ensures { (ts : List Tree) → Adds ts self.old self.new (flat_map (declaration_parts ts) list.now) }
    {
        for declaration in list {
            self.start(&declaration.start);
        }
    }

    // Globals.
    fn globals(&mut self, list: &[Declaration]) -> Result<(), AllocError>
        ensures { OnOk result ((ts : List Tree) → Adds ts self.old self.new (flat_map (global_parts ts) list.now)) }
    {
        for declaration in list {
            self.keeps(&declaration.name)?;
            self.start(&declaration.start);
        }
        Ok(())
    }

    // Definitions.
    fn definitions(&mut self, list: &[Definition]) -> Result<(), AllocError>
        ensures { OnOk result ((ts : List Tree) → Adds ts self.old self.new (flat_map (definition_parts ts) list.now)) }
    {
        for definition in list {
            self.keeps(&definition.name)?;
            self.params(&definition.params)?;
            self.expr(definition.body);
        }
        Ok(())
    }

    // Macros.
    fn macros(&mut self, list: &[Macro]) -> Result<(), AllocError>
        ensures { OnOk result ((ts : List Tree) → Adds ts self.old self.new (flat_map (macro_parts ts) list.now)) }
    {
        for one in list {
            self.declares(&one.name);
            self.params(&one.params)?;
            self.body(&one.body)?;
        }
        Ok(())
    }

    // A procedure.
    fn procedure(&mut self, procedure: &Procedure) -> Result<(), AllocError>
        ensures { OnOk result ((ts : List Tree) → Adds ts self.old self.new (procedure_parts ts procedure.now)) }
    {
        self.stacked(&procedure.name);
        self.declared_list(&procedure.params, &procedure.variables)?;
        self.starts(&procedure.params);
        self.starts(&procedure.variables);
        self.body(&procedure.body)
    }

    // Procedures.
    fn procedures(&mut self, list: &[Procedure]) -> Result<(), AllocError>
        ensures { OnOk result ((ts : List Tree) → Adds ts self.old self.new (flat_map (procedure_parts ts) list.now)) }
    {
        for procedure in list {
            self.procedure(procedure)?;
        }
        Ok(())
    }

    // A process.
    fn process(&mut self, process: &Process) -> Result<(), AllocError>
        ensures { OnOk result ((ts : List Tree) → Adds ts self.old self.new (process_parts ts process.now)) }
    {
        self.declares(&process.name);
        self.declared_list(&process.variables, &[])?;
        self.expr(process.identity);
        self.starts(&process.variables);
        self.body(&process.body)
    }

    // Processes.
    fn processes(&mut self, list: &[Process]) -> Result<(), AllocError>
        ensures { OnOk result ((ts : List Tree) → Adds ts self.old self.new (flat_map (process_parts ts) list.now)) }
    {
        for process in list {
            self.process(process)?;
        }
        Ok(())
    }

    // What runs.
    fn main(&mut self, main: &Main) -> Result<(), AllocError>
        ensures { OnOk result ((ts : List Tree) → Adds ts self.old self.new (main_parts ts main.now)) }
    {
        match main {
            Main::Alone(body) => self.body(body),
            Main::Processes(processes) => self.processes(processes),
        }
    }

    /// A whole algorithm.
    ///
    /// # Errors
    ///
    /// Only for want of memory.
    pub fn algorithm(&mut self, algorithm: &Algorithm) -> Result<(), AllocError>
        ensures { OnOk result ((ts : List Tree) → Adds ts self.old self.new (parts_of_algorithm ts algorithm.now)) }
    {
        self.globals(&algorithm.globals)?;
        self.definitions(&algorithm.definitions)?;
        self.macros(&algorithm.macros)?;
        self.procedures(&algorithm.procedures)?;
        self.main(&algorithm.main)
    }
}
