//! Expressions, with each name as its variable.
ghost use Rattle.std.specs.Prelude.{◌≡◌, ◌∷◌, IfOk, map, option_map};
ghost use Rattle.star_trees.specs.Variables.{outer};
ghost use Rattle.star_scopes.specs.ExprMaking as spec;
ghost use Rattle.star_scopes.specs.ExprMeaning.{arg_meaning, clause_meaning, meaning, pair_meaning};
ghost use Rattle.star_scopes.specs.ExprMeaning.{param_meaning};
ghost use Rattle.star_scopes.specs.Maker.{Keeps, Makes};

use crate::bindings::{clause_variables, param_variables};
use crate::maker::Maker;
use bz_text::{Mem, Seq, Txt};
use sqlite_items::{Boxed, Items};
use star_grammar::{BareArg, BareClause, BareExpr, BarePair, BareParam};
use star_trees::{Arg, BinOp, Clause, Expr, ExprPair, FnBody, FnCode, Param, Target, UnOp};
use std::alloc::Global;

impl Maker {
    /// An expression.
    #[cycle(making_expressions)]
    pub(crate) fn expr(&mut self, tree: &BareExpr) -> Mem<Expr>
        ensures made { Makes ((meaning tree.now).expr self.old.free self.old.scopes self.old.lists) result
            self.new }
        ensures same { Keeps result self.old self.new }
    {
        match tree {
            BareExpr::Name(name) => Ok(Expr::Name(self.variable(&name.name)?)),
            BareExpr::Int(value) => Ok(Expr::Int(*value)),
            BareExpr::Text(text) => Ok(Expr::Text(text.copy(self.alloc)?)),
            BareExpr::List(items) => Ok(Expr::List(self.items_made(items.as_slice())?)),
            BareExpr::Tuple(items) => Ok(Expr::Tuple(self.items_made(items.as_slice())?)),
            BareExpr::Dict(pairs) => Ok(Expr::Dict(self.pairs_made(pairs.as_slice())?)),
            BareExpr::ListComp { item, clauses } => self.list_comp(clauses.as_slice(), item.get()),
            BareExpr::DictComp {
                key,
                value,
                clauses,
            } => self.dict_comp(clauses.as_slice(), key.get(), value.get()),
            BareExpr::Bracketed(inside) => self.expr(inside.get()),
            BareExpr::Unary { op, of } => self.unary(*op, of.get()),
            BareExpr::Binary { op, left, right } => self.binary(*op, left.get(), right.get()),
            BareExpr::Cond { test, then, other } => self.cond(test.get(), then.get(), other.get()),
            BareExpr::Lambda { params, body, line } => self.lambda(
                params.as_slice(),
                body.get(),
                *line,
            ),
            BareExpr::Attr { of, name } => self.attr(of.get(), name),
            BareExpr::Index { of, at } => self.index(of.get(), at.get()),
            BareExpr::Slice {
                of,
                begin,
                end,
                step,
            } => {
                let of = self.boxed(of.get())?;
                let begin = self.maybe(begin)?;
                let end = self.maybe(end)?;
                let step = self.maybe(step)?;
                Ok(Expr::Slice {
                    of,
                    begin,
                    end,
                    step,
                })
            }
            BareExpr::Call { function, args } => self.call(args.as_slice(), function.get()),
        }
    }

    #[cycle(making_expressions)]
    fn boxed(&mut self, tree: &BareExpr) -> Mem<Boxed<Expr>>
        ensures made { Makes ((meaning tree.now).expr self.old.free self.old.scopes self.old.lists) result
            self.new }
        ensures same { Keeps result self.old self.new }
    {
        let made = self.expr(tree)?;
        Ok(Boxed::new(self.alloc, made)?)
    }

    /// A target.
    #[cycle(making_expressions)]
    #[tactic(auto, unfolding(crate::specs::ExprMeaning::meaning))]
    pub(crate) fn target(&mut self, tree: &BareExpr) -> Mem<Target>
        ensures made { Makes ((meaning tree.now).target self.old.free self.old.scopes self.old.lists) result
            self.new }
        ensures same { Keeps result self.old self.new }
    {
        match tree {
            BareExpr::Name(name) => Ok(Target::Name(self.variable(&name.name)?)),
            BareExpr::Index { of, at } => self.index_target(of.get(), at.get()),
            BareExpr::Bracketed(target) => self.target(target.get()),
            BareExpr::Tuple(targets) => Ok(Target::Many(self.targets_made(targets.as_slice())?)),
            BareExpr::List(targets) => Ok(Target::Many(self.targets_made(targets.as_slice())?)),
            _ => Ok(Target::Many(Items::new(self.alloc))),
        }
    }

    #[cycle(making_expressions)]
    #[tactic(auto, using(crate::proofs::Walks::making_walks), unfolding(crate::specs::ExprMaking::items_made))]
    fn items_made(&mut self, items: &[BareExpr]) -> Mem<Items<Expr>>
        ensures made { Makes (spec.items_made self.old.free self.old.scopes (map meaning items.now)
            self.old.lists) result self.new }
        ensures same { Keeps result self.old self.new }
    {
        let mut made = Vec::new(self.alloc);
        'items: for item in items {
            made.push(self.expr(item)?)?;
        }
        Ok(Items::from_vec(made))
    }

    #[cycle(making_expressions)]
    #[tactic(auto, using(crate::proofs::Walks::making_walks), unfolding(crate::specs::ExprMaking::targets_made))]
    fn targets_made(&mut self, targets: &[BareExpr]) -> Mem<Items<Target>>
        ensures made { Makes (spec.targets_made self.old.free self.old.scopes (map meaning targets.now)
            self.old.lists) result self.new }
        ensures same { Keeps result self.old self.new }
    {
        let mut made = Vec::new(self.alloc);
        'targets: for target in targets {
            made.push(self.target(target)?)?;
        }
        Ok(Items::from_vec(made))
    }

    #[cycle(making_expressions)]
    #[tactic(auto, using(crate::proofs::Walks::making_walks), unfolding(crate::specs::ExprMaking::pairs_made))]
    fn pairs_made(&mut self, pairs: &[BarePair]) -> Mem<Items<ExprPair>>
        ensures made { Makes (spec.pairs_made self.old.free self.old.scopes (map pair_meaning pairs.now)
            self.old.lists) result self.new }
        ensures same { Keeps result self.old self.new }
    {
        let mut made = Vec::new(self.alloc);
        'pairs: for pair in pairs {
            made.push(self.pair(pair)?)?;
        }
        Ok(Items::from_vec(made))
    }

    #[cycle(making_expressions)]
    #[tactic(auto, unfolding(crate::specs::ExprMaking::pair_made))]
    fn pair(&mut self, pair: &BarePair) -> Mem<ExprPair>
        ensures made { Makes ((pair_meaning pair.now).pair self.old.free self.old.scopes self.old.lists) result
            self.new }
        ensures same { Keeps result self.old self.new }
    {
        let key = self.expr(&pair.key)?;
        let value = self.expr(&pair.value)?;
        Ok(ExprPair { key, value })
    }

    #[cycle(making_expressions)]
    #[tactic(auto, using(crate::proofs::Walks::making_walks), unfolding(crate::specs::ExprMaking::args_made))]
    fn args_made(&mut self, args: &[BareArg]) -> Mem<Items<Arg>>
        ensures made { Makes (spec.args_made self.old.free self.old.scopes (map arg_meaning args.now)
            self.old.lists) result self.new }
        ensures same { Keeps result self.old self.new }
    {
        let mut made = Vec::new(self.alloc);
        'each: for arg in args {
            made.push(self.arg(arg)?)?;
        }
        Ok(Items::from_vec(made))
    }

    #[cycle(making_expressions)]
    fn arg(&mut self, arg: &BareArg) -> Mem<Arg>
        ensures made { Makes ((arg_meaning arg.now).arg self.old.free self.old.scopes self.old.lists) result
            self.new }
        ensures same { Keeps result self.old self.new }
    {
        match arg {
            BareArg::Positional(value) => Ok(Arg::Positional(self.expr(value)?)),
            BareArg::Named { name, value } => self.named_arg(name, value),
            BareArg::Star { value, line: _ } => Ok(Arg::Star(self.expr(value)?)),
            BareArg::DoubleStar { value, line: _ } => Ok(Arg::DoubleStar(self.expr(value)?)),
        }
    }

    #[cycle(making_expressions)]
    #[tactic(auto, unfolding(crate::specs::ExprMaking::named_arg_made))]
    fn named_arg(&mut self, name: &Txt, value: &BareExpr) -> Mem<Arg>
        ensures made { Makes (spec.named_arg_made self.old.free self.old.scopes name.now (meaning value.now)
            self.old.lists) result self.new }
        ensures same { Keeps result self.old self.new }
    {
        let value = self.expr(value)?;
        let name = name.copy(self.alloc)?;
        Ok(Arg::Named { name, value })
    }

    #[cycle(making_expressions)]
    #[tactic(auto, using(crate::proofs::Walks::making_walks), unfolding(crate::specs::ExprMaking::params_made))]
    pub(crate) fn params_made(&mut self, params: &[BareParam]) -> Mem<Seq<Param>>
        ensures made { Makes (spec.params_made self.old.free self.old.scopes (map param_meaning params.now)
            self.old.lists) result self.new }
        ensures same { Keeps result self.old self.new }
    {
        let mut made = Vec::new(self.alloc);
        'params: for param in params {
            made.push(self.param(param)?)?;
        }
        Ok(Seq::of_vec(made))
    }

    #[cycle(making_expressions)]
    fn param(&mut self, param: &BareParam) -> Mem<Param>
        ensures made { Makes ((param_meaning param.now).param self.old.free self.old.scopes self.old.lists)
            result self.new }
        ensures same { Keeps result self.old self.new }
    {
        match param {
            BareParam::Required(name) => Ok(Param::Required(name.copy(self.alloc)?)),
            BareParam::Optional { name, default } => self.optional(name, default),
            BareParam::Bare { line: _ } => Ok(Param::Bare),
            BareParam::Rest { name, line: _ } => Ok(Param::Rest(name.copy(self.alloc)?)),
            BareParam::Keywords { name, line: _ } => Ok(Param::Keywords(name.copy(self.alloc)?)),
        }
    }

    #[cycle(making_expressions)]
    #[tactic(auto, unfolding(crate::specs::ExprMaking::optional_made))]
    fn optional(&mut self, name: &Txt, default: &BareExpr) -> Mem<Param>
        ensures made { Makes (spec.optional_made self.old.free self.old.scopes name.now (meaning default.now)
            self.old.lists) result self.new }
        ensures same { Keeps result self.old self.new }
    {
        let default = self.expr(default)?;
        let name = name.copy(self.alloc)?;
        Ok(Param::Optional { name, default })
    }

    #[cycle(making_expressions)]
    #[tactic(auto, unfolding(crate::specs::ExprMaking::maybe_made))]
    fn maybe(&mut self, bound: &Option<Boxed<BareExpr>>) -> Mem<Option<Boxed<Expr>>>
        ensures made { Makes (spec.maybe_made self.old.free self.old.scopes (option_map meaning bound.now)
            self.old.lists) result self.new }
        ensures same { Keeps result self.old self.new }
    {
        match bound {
            Some(bound) => Ok(Some(self.boxed(bound.get())?)),
            None => Ok(None),
        }
    }

    #[cycle(making_expressions)]
    #[tactic(auto, unfolding(crate::specs::ExprMaking::unary_made))]
    fn unary(&mut self, op: UnOp, operand: &BareExpr) -> Mem<Expr>
        ensures made { Makes (spec.unary_made self.old.free self.old.scopes op (meaning operand.now)
            self.old.lists) result self.new }
        ensures same { Keeps result self.old self.new }
    {
        let of = self.boxed(operand)?;
        Ok(Expr::Unary { op, of })
    }

    #[cycle(making_expressions)]
    #[tactic(auto, unfolding(crate::specs::ExprMaking::binary_made))]
    fn binary(&mut self, op: BinOp, left: &BareExpr, right: &BareExpr) -> Mem<Expr>
        ensures made { Makes (spec.binary_made self.old.free self.old.scopes op (meaning left.now) (meaning
            right.now) self.old.lists) result self.new }
        ensures same { Keeps result self.old self.new }
    {
        let left = self.boxed(left)?;
        let right = self.boxed(right)?;
        Ok(Expr::Binary { op, left, right })
    }

    #[cycle(making_expressions)]
    #[tactic(auto, unfolding(crate::specs::ExprMaking::cond_made))]
    fn cond(&mut self, test: &BareExpr, chosen: &BareExpr, other: &BareExpr) -> Mem<Expr>
        ensures made { Makes (spec.cond_made self.old.free self.old.scopes (meaning test.now) (meaning
            chosen.now) (meaning other.now) self.old.lists) result self.new }
        ensures same { Keeps result self.old self.new }
    {
        let then = self.boxed(chosen)?;
        let test = self.boxed(test)?;
        let other = self.boxed(other)?;
        Ok(Expr::Cond { test, then, other })
    }

    #[cycle(making_expressions)]
    #[tactic(auto, unfolding(crate::specs::ExprMaking::attr_made))]
    fn attr(&mut self, container: &BareExpr, name: &Txt) -> Mem<Expr>
        ensures made { Makes (spec.attr_made self.old.free self.old.scopes (meaning container.now) name.now
            self.old.lists) result self.new }
        ensures same { Keeps result self.old self.new }
    {
        let of = self.boxed(container)?;
        let name = name.copy(self.alloc)?;
        Ok(Expr::Attr { of, name })
    }

    #[cycle(making_expressions)]
    #[tactic(auto, unfolding(crate::specs::ExprMaking::index_made))]
    fn index(&mut self, container: &BareExpr, at: &BareExpr) -> Mem<Expr>
        ensures made { Makes (spec.index_made self.old.free self.old.scopes (meaning container.now) (meaning
            at.now) self.old.lists) result self.new }
        ensures same { Keeps result self.old self.new }
    {
        let of = self.boxed(container)?;
        let at = self.boxed(at)?;
        Ok(Expr::Index { of, at })
    }

    #[cycle(making_expressions)]
    #[tactic(auto, unfolding(crate::specs::ExprMaking::index_target))]
    fn index_target(&mut self, container: &BareExpr, at: &BareExpr) -> Mem<Target>
        ensures made { Makes (spec.index_target self.old.free self.old.scopes (meaning container.now) (meaning
            at.now) self.old.lists) result self.new }
        ensures same { Keeps result self.old self.new }
    {
        let of = self.boxed(container)?;
        let at = self.boxed(at)?;
        Ok(Target::Index { of, at })
    }

    #[cycle(making_expressions)]
    #[tactic(auto, unfolding(crate::specs::ExprMaking::call_made))]
    fn call(&mut self, args: &[BareArg], function: &BareExpr) -> Mem<Expr>
        ensures made { Makes (spec.call_made self.old.free self.old.scopes (meaning function.now) (map
            arg_meaning args.now) self.old.lists) result self.new }
        ensures same { Keeps result self.old self.new }
    {
        let function = self.boxed(function)?;
        let args = self.args_made(args)?;
        Ok(Expr::Call { function, args })
    }

    #[cycle(making_expressions)]
    #[tactic(auto, unfolding(crate::specs::ExprMaking::lambda_made))]
    fn lambda(&mut self, params: &[BareParam], body: &BareExpr, line: u64) -> Mem<Expr>
        ensures made { Makes (spec.lambda_made self.old.free self.old.scopes (map param_meaning params.now)
            (meaning body.now) line self.old.lists) result self.new }
        ensures same { Keeps result self.old self.new }
    {
        let place = self.lists.begin(self.alloc)?;
        let made = self.params_made(params)?;
        self.scopes.enter(param_variables(self.alloc, params)?)?;
        let body = self.boxed(body)?;
        self.scopes.leave();
        self.lists
            .finish(self.alloc, place, lambda_code(made, body, line));
        Ok(Expr::Lambda(place))
    }

    #[cycle(making_expressions)]
    #[tactic(auto, unfolding(crate::specs::ExprMaking::list_comp_made))]
    fn list_comp(&mut self, clauses: &[BareClause], item: &BareExpr) -> Mem<Expr>
        ensures made { Makes (spec.list_comp_made self.old.free self.old.scopes (meaning item.now) (map
            clause_meaning clauses.now) self.old.lists) result self.new }
        ensures same { Keeps result self.old self.new }
    {
        self.scopes.enter(clause_variables(self.alloc, clauses)?)?;
        let item = self.boxed(item)?;
        let clauses = self.clauses(clauses)?;
        self.scopes.leave();
        Ok(Expr::ListComp { item, clauses })
    }

    #[cycle(making_expressions)]
    #[tactic(auto, unfolding(crate::specs::ExprMaking::dict_comp_made))]
    fn dict_comp(&mut self, clauses: &[BareClause], key: &BareExpr, value: &BareExpr) -> Mem<Expr>
        ensures made { Makes (spec.dict_comp_made self.old.free self.old.scopes (meaning key.now) (meaning
            value.now) (map clause_meaning clauses.now) self.old.lists) result self.new }
        ensures same { Keeps result self.old self.new }
    {
        self.scopes.enter(clause_variables(self.alloc, clauses)?)?;
        let key = self.boxed(key)?;
        let value = self.boxed(value)?;
        let clauses = self.clauses(clauses)?;
        self.scopes.leave();
        Ok(Expr::DictComp {
            key,
            value,
            clauses,
        })
    }

    /// The clauses of a comprehension whose scope is entered.
    #[cycle(making_expressions)]
    #[tactic(auto, unfolding(crate::specs::ExprMaking::clauses_made))]
    fn clauses(&mut self, clauses: &[BareClause]) -> Mem<Items<Clause>>
        ensures made { Makes (spec.clauses_made self.old.free (outer self.old.scopes) self.old.scopes (map
            clause_meaning clauses.now) self.old.lists) result self.new }
        ensures same { Keeps result self.old self.new }
    {
        match clauses {
            [first, more @ ..] => self.some_clauses(more, first),
            [] => Ok(Items::new(self.alloc)),
        }
    }

    #[cycle(making_expressions)]
    #[tactic(auto, unfolding(crate::specs::ExprMaking::some_clauses_made))]
    fn some_clauses(&mut self, more: &[BareClause], first: &BareClause) -> Mem<Items<Clause>>
        ensures made { Makes (spec.some_clauses_made self.old.free (outer self.old.scopes) self.old.scopes
            (clause_meaning first.now)
            (map clause_meaning more.now) self.old.lists) result self.new }
        ensures same { Keeps result self.old self.new }
    {
        let first = self.first_clause(first)?;
        let others = self.more_clauses(more)?;
        behind(self.alloc, first, others)
    }

    #[cycle(making_expressions)]
    #[tactic(auto, unfolding(crate::specs::ExprMaking::for_clause_made))]
    fn first_clause(&mut self, clause: &BareClause) -> Mem<Clause>
        ensures made { Makes ((clause_meaning clause.now).clause self.old.free self.old.scopes (outer
            self.old.scopes) self.old.lists) result self.new }
        ensures same { Keeps result self.old self.new }
    {
        match clause {
            BareClause::For { to, over } => {
                let to = self.target(to)?;
                let over = self.over(over)?;
                Ok(Clause::For { to, over })
            }
            BareClause::If(test) => Ok(Clause::If(self.expr(test)?)),
        }
    }

    /// The operand of the first `in`, outside the comprehension.
    #[cycle(making_expressions)]
    fn over(&mut self, over: &BareExpr) -> Mem<Expr>
        ensures made { Makes ((meaning over.now).expr self.old.free (outer self.old.scopes) self.old.lists)
            result self.new }
        ensures same { Keeps result self.old self.new }
    {
        match self.scopes.leave() {
            Some(inner) => {
                let made = self.expr(over)?;
                self.scopes.enter(inner)?;
                Ok(made)
            }
            None => self.expr(over),
        }
    }

    #[cycle(making_expressions)]
    #[tactic(auto, using(crate::proofs::Walks::making_walks), unfolding(crate::specs::ExprMaking::more_clauses_made))]
    fn more_clauses(&mut self, clauses: &[BareClause]) -> Mem<Items<Clause>>
        ensures made { Makes (spec.more_clauses_made self.old.free (outer self.old.scopes) self.old.scopes (map
            clause_meaning clauses.now) self.old.lists) result self.new }
        ensures same { Keeps result self.old self.new }
    {
        let mut made = Vec::new(self.alloc);
        'clauses: for clause in clauses {
            made.push(self.clause(clause)?)?;
        }
        Ok(Items::from_vec(made))
    }

    #[cycle(making_expressions)]
    #[tactic(auto, unfolding(crate::specs::ExprMaking::for_clause_made))]
    fn clause(&mut self, clause: &BareClause) -> Mem<Clause>
        ensures made { Makes ((clause_meaning clause.now).clause self.old.free self.old.scopes self.old.scopes
            self.old.lists) result self.new }
        ensures same { Keeps result self.old self.new }
    {
        match clause {
            BareClause::For { to, over } => {
                let to = self.target(to)?;
                let over = self.expr(over)?;
                Ok(Clause::For { to, over })
            }
            BareClause::If(test) => Ok(Clause::If(self.expr(test)?)),
        }
    }
}

/// One item, and others behind it.
fn behind<T: Drop>(alloc: Global, first: T, others: Items<T>) -> Mem<Items<T>>
    ensures { IfOk result (λ all. all ≡ first ∷ others) }
{
    let mut all = Items::new(alloc);
    all.push(first)?;
    all.append(others)?;
    Ok(all)
}

/// The code of a `lambda`.
fn lambda_code(params: Seq<Param>, body: Boxed<Expr>, line: u64) -> FnCode
    ensures { result ≡ spec.lambda_code params body line }
{
    FnCode {
        name: None,
        params,
        body: FnBody::Value(body),
        line,
    }
}
