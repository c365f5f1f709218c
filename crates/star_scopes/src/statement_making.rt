//! Statements, with each name as its variable.
ghost use Rattle.std.specs.Prelude.{◌≡◌, IfOk, map, option_map};
ghost use Rattle.star_scopes.specs.ExprMeaning.{meaning};
ghost use Rattle.star_scopes.specs.Maker.{Keeps, Makes};
ghost use Rattle.star_scopes.specs.StatementMaking as spec;
ghost use Rattle.star_scopes.specs.StatementMeaning.{kind_meaning, stmt_meaning};

use crate::bindings::function_variables;
use crate::maker::Maker;
use bz_text::{Mem, Seq, Txt};
use sqlite_items::Items;
use star_grammar::{BareExpr, BareLoadName, BareName, BareParam, BareStmt, BareStmtKind};
use star_trees::{BinOp, FnBody, FnCode, Load, LoadName, Param, Stmt, StmtKind};
use std::alloc::Global;

impl Maker {
    /// Statements, one by one.
    #[cycle(making_statements)]
    #[tactic(auto, using(crate::proofs::Walks::making_walks), unfolding(crate::specs::StatementMaking::body_made))]
    pub(crate) fn body_made(&mut self, body: &[BareStmt]) -> Mem<Items<Stmt>>
        ensures made { Makes (spec.body_made self.old.free self.old.scopes (map stmt_meaning body.now)
            self.old.lists) result self.new }
        ensures same { Keeps result self.old self.new }
    {
        let mut made = Vec::new(self.alloc);
        'statements: for statement in body {
            made.push(self.statement(statement)?)?;
        }
        Ok(Items::from_vec(made))
    }

    #[cycle(making_statements)]
    #[tactic(auto, using(crate::proofs::StatementLayers::statement_lines), unfolding(crate::specs::StatementMaking::stmt_made))]
    fn statement(&mut self, statement: &BareStmt) -> Mem<Stmt>
        ensures made { Makes ((stmt_meaning statement.now).stmt self.old.free self.old.scopes self.old.lists)
            result self.new }
        ensures same { Keeps result self.old self.new }
    {
        let kind = self.kind(&statement.kind, statement.line)?;
        Ok(Stmt {
            line: statement.line,
            kind,
        })
    }

    #[cycle(making_statements)]
    fn kind(&mut self, kind: &BareStmtKind, line: u64) -> Mem<StmtKind>
        ensures made { Makes ((kind_meaning kind.now).kind line self.old.free self.old.scopes self.old.lists)
            result self.new }
        ensures same { Keeps result self.old self.new }
    {
        match kind {
            BareStmtKind::Def { name, params, body } => {
                self.def(body.as_slice(), name, params.as_slice(), line)
            }
            BareStmtKind::If { test, then, other } => {
                let test = self.expr(test)?;
                let then = self.body_made(then.as_slice())?;
                let other = self.body_made(other.as_slice())?;
                Ok(StmtKind::If { test, then, other })
            }
            BareStmtKind::For { to, over, body } => self.looped(body.as_slice(), to, over),
            BareStmtKind::Return(value) => self.returned(value),
            BareStmtKind::Break => Ok(StmtKind::Break),
            BareStmtKind::Continue => Ok(StmtKind::Continue),
            BareStmtKind::Pass => Ok(StmtKind::Pass),
            BareStmtKind::Load { file, names } => self.load(file, names.items(), line),
            BareStmtKind::Assign { to, value } => self.assign(to, value),
            BareStmtKind::Augment { place, op, value } => self.augment(place, *op, value),
            BareStmtKind::Value(value) => Ok(StmtKind::Value(self.expr(value)?)),
        }
    }

    #[cycle(making_statements)]
    #[tactic(auto, unfolding(crate::specs::StatementMaking::def_made))]
    fn def(
        &mut self,
        body: &[BareStmt],
        name: &BareName,
        params: &[BareParam],
        line: u64,
    ) -> Mem<StmtKind>
        ensures made { Makes (spec.def_made self.old.free self.old.scopes name.now params.now (map stmt_meaning
            body.now) line self.old.lists) result self.new }
        ensures same { Keeps result self.old self.new }
    {
        let place = self.lists.begin(self.alloc)?;
        let made_params = self.params_made(params)?;
        self.scopes
            .enter(function_variables(self.alloc, params, body)?)?;
        let made = self.body_made(body)?;
        self.scopes.leave();
        let called = name.name.copy(self.alloc)?;
        self.lists.finish(self.alloc, place, def_code(called, made_params, made, line));
        let to = self.variable(&name.name)?;
        Ok(StmtKind::Def {
            function: place,
            to,
        })
    }

    #[cycle(making_statements)]
    #[tactic(auto, unfolding(crate::specs::StatementMaking::for_made))]
    fn looped(&mut self, body: &[BareStmt], to: &BareExpr, over: &BareExpr) -> Mem<StmtKind>
        ensures made { Makes (spec.for_made self.old.free self.old.scopes to.now over.now (map stmt_meaning
            body.now) self.old.lists) result self.new }
        ensures same { Keeps result self.old self.new }
    {
        let to = self.target(to)?;
        let over = self.expr(over)?;
        let body = self.body_made(body)?;
        Ok(StmtKind::For { to, over, body })
    }

    #[tactic(auto, unfolding(crate::specs::StatementMaking::return_made))]
    fn returned(&mut self, value: &Option<BareExpr>) -> Mem<StmtKind>
        ensures made { Makes (spec.return_made self.old.free self.old.scopes value.now self.old.lists) result
            self.new }
        ensures same { Keeps result self.old self.new }
    {
        match value {
            Some(value) => Ok(StmtKind::Return(Some(self.expr(value)?))),
            None => Ok(StmtKind::Return(None)),
        }
    }

    #[tactic(auto, unfolding(crate::specs::StatementMaking::load_made))]
    fn load(&mut self, file: &Txt, names: &[BareLoadName], line: u64) -> Mem<StmtKind>
        ensures made { Makes (spec.load_made file.now names.now line self.old.lists) result self.new }
        ensures same { Keeps result self.old self.new }
    {
        let loaded = load_of(self.alloc, file, names, line)?;
        let place = self.lists.load(loaded)?;
        Ok(StmtKind::Load(place))
    }

    #[tactic(auto, unfolding(crate::specs::StatementMaking::assign_made))]
    fn assign(&mut self, to: &BareExpr, value: &BareExpr) -> Mem<StmtKind>
        ensures made { Makes (spec.assign_made self.old.free self.old.scopes to.now value.now self.old.lists)
            result self.new }
        ensures same { Keeps result self.old self.new }
    {
        let to = self.target(to)?;
        let value = self.expr(value)?;
        Ok(StmtKind::Assign { to, value })
    }

    #[tactic(auto, unfolding(crate::specs::StatementMaking::augment_made))]
    fn augment(&mut self, place: &BareExpr, op: BinOp, value: &BareExpr) -> Mem<StmtKind>
        ensures made { Makes (spec.augment_made self.old.free self.old.scopes place.now op value.now
            self.old.lists) result self.new }
        ensures same { Keeps result self.old self.new }
    {
        let place = self.expr(place)?;
        let value = self.expr(value)?;
        Ok(StmtKind::Augment { place, op, value })
    }
}

/// The code of a `def`.
fn def_code(name: Txt, params: Seq<Param>, body: Items<Stmt>, line: u64) -> FnCode
    ensures { result ≡ spec.def_code name params body line }
{
    FnCode {
        name: Some(name),
        params,
        body: FnBody::Block(body),
        line,
    }
}

fn load_name(alloc: Global, loaded: &BareLoadName) -> Mem<LoadName>
    ensures { IfOk result (λ name. name ≡ loaded.now.name) }
{
    Ok(LoadName {
        local: loaded.name.local.copy(alloc)?,
        remote: loaded.name.remote.copy(alloc)?,
    })
}

/// A `load` statement on a line.
fn load_of(alloc: Global, file: &Txt, names: &[BareLoadName], line: u64) -> Mem<Load>
    ensures { IfOk result (λ loaded. loaded ≡ spec.load_of file.now names.now line) }
{
    let mut made = Vec::new(alloc);
    'names: for name in names {
        made.push(load_name(alloc, name)?)?;
    }
    Ok(Load {
        file: file.copy(alloc)?,
        names: Seq::of_vec(made),
        line,
    })
}
