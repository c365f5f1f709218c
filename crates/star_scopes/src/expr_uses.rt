//! The free names that expressions use, in the order of the text.
ghost use Rattle.std.specs.Prelude.{◌≡◌, map, OnOk, option_map};
ghost use Rattle.bz_text.specs.Answers.{Gives};
ghost use Rattle.star_scopes.specs.ExprMeaning.{arg_meaning, clause_meaning, meaning, pair_meaning};
ghost use Rattle.star_scopes.specs.ExprMeaning.{param_meaning};
ghost use Rattle.star_scopes.specs.ExprUses as spec;
ghost use Rattle.star_trees.specs.Variables.{outer};
ghost use Rattle.star_scopes.specs.Meanings.{ClauseMeaning};
ghost use Rattle.star_scopes.specs.Uses as uses;
ghost use Rattle.star_scopes.specs.Uses.{each_uses};

use crate::bindings::{clause_variables, param_variables};
use crate::dialects::Dialect;
use crate::free_names::has_free;
use crate::unbound::Unbound;
use bz_text::{May, Miss};
use sqlite_items::Boxed;
use star_grammar::{BareArg, BareClause, BareExpr, BareName, BarePair, BareParam};
use star_names::{Names, Scopes};
use std::alloc::Global;

fn free_use(alloc: Global, dialect: Dialect, names: Names, name: &BareName) -> May<Names, Unbound>
    ensures { Gives (uses.free_use dialect name.now names) result }
{
    if has_free(dialect, name.name.as_str().as_bytes()) {
        return Ok(names.with(alloc, &name.name)?);
    }
    Err(Miss::Because(Unbound {
        line: name.line,
        name: name.name.copy(alloc)?,
    }))
}

#[tactic(auto, unfolding(crate::specs::Uses::name_uses))]
fn name_use(
    alloc: Global,
    dialect: Dialect,
    scopes: &Scopes,
    names: Names,
    name: &BareName,
) -> May<Names, Unbound>
    ensures { Gives (uses.name_uses name.now dialect scopes.now names) result }
{
    match scopes.find(name.name.as_str()) {
        Some(_) => Ok(names),
        None => free_use(alloc, dialect, names, name),
    }
}

/// The free names that an expression uses.
#[cycle(expression_uses)]
pub(crate) fn expr_uses(
    alloc: Global,
    dialect: Dialect,
    scopes: &mut Scopes,
    names: Names,
    tree: &BareExpr,
) -> May<Names, Unbound>
    ensures uses { Gives ((meaning tree.now).uses dialect scopes.old names) result }
    ensures same { OnOk result (scopes.new ≡ scopes.old) }
{
    match tree {
        BareExpr::Name(name) => name_use(alloc, dialect, scopes, names, name),
        BareExpr::Int(_) => Ok(names),
        BareExpr::Text(_) => Ok(names),
        BareExpr::List(items) => items_use(alloc, dialect, scopes, names, items.as_slice()),
        BareExpr::Tuple(items) => items_use(alloc, dialect, scopes, names, items.as_slice()),
        BareExpr::Dict(pairs) => pairs_use(alloc, dialect, scopes, names, pairs.as_slice()),
        BareExpr::ListComp { item, clauses } => {
            list_comp_uses(
                alloc,
                dialect,
                scopes,
                names,
                clauses.as_slice(),
                item.get(),
            )
        }
        BareExpr::DictComp {
            key,
            value,
            clauses,
        } => dict_comp_uses(
            alloc,
            dialect,
            scopes,
            names,
            clauses.as_slice(),
            key.get(),
            value.get(),
        ),
        BareExpr::Bracketed(inside) => expr_uses(alloc, dialect, scopes, names, inside.get()),
        BareExpr::Unary { op: _, of } => expr_uses(alloc, dialect, scopes, names, of.get()),
        BareExpr::Binary { op: _, left, right } => {
            two_use(alloc, dialect, scopes, names, left.get(), right.get())
        }
        BareExpr::Cond { test, then, other } => {
            cond_uses(
                alloc,
                dialect,
                scopes,
                names,
                test.get(),
                then.get(),
                other.get(),
            )
        }
        BareExpr::Lambda {
            params,
            body,
            line: _,
        } => lambda_uses(alloc, dialect, scopes, names, params.as_slice(), body.get()),
        BareExpr::Attr { of, name: _ } => expr_uses(alloc, dialect, scopes, names, of.get()),
        BareExpr::Index { of, at } => two_use(alloc, dialect, scopes, names, of.get(), at.get()),
        BareExpr::Slice {
            of,
            begin,
            end,
            step,
        } => {
            let names = expr_uses(alloc, dialect, scopes, names, of.get())?;
            let names = maybe_uses(alloc, dialect, scopes, names, begin)?;
            let names = maybe_uses(alloc, dialect, scopes, names, end)?;
            maybe_uses(alloc, dialect, scopes, names, step)
        }
        BareExpr::Call { function, args } => {
            call_uses(
                alloc,
                dialect,
                scopes,
                names,
                args.as_slice(),
                function.get(),
            )
        }
    }
}

#[cycle(expression_uses)]
#[tactic(auto, using(crate::proofs::Walks::use_walks), unfolding(crate::specs::ExprUses::items_use))]
fn items_use(
    alloc: Global,
    dialect: Dialect,
    scopes: &mut Scopes,
    names: Names,
    items: &[BareExpr],
) -> May<Names, Unbound>
    ensures uses { Gives (spec.items_use dialect scopes.old (map meaning items.now) names) result }
    ensures same { OnOk result (scopes.new ≡ scopes.old) }
{
    let mut names = names;
    'items: for item in items {
        match expr_uses(alloc, dialect, scopes, names, item) {
            Ok(more) => names = more,
            Err(fault) => return Err(fault),
        }
    }
    Ok(names)
}

#[cycle(expression_uses)]
#[tactic(auto, using(crate::proofs::Walks::use_walks), unfolding(crate::specs::ExprUses::pairs_use))]
fn pairs_use(
    alloc: Global,
    dialect: Dialect,
    scopes: &mut Scopes,
    names: Names,
    pairs: &[BarePair],
) -> May<Names, Unbound>
    ensures uses { Gives (spec.pairs_use dialect scopes.old (map pair_meaning pairs.now) names) result }
    ensures same { OnOk result (scopes.new ≡ scopes.old) }
{
    let mut names = names;
    'pairs: for pair in pairs {
        match pair_uses(alloc, dialect, scopes, names, pair) {
            Ok(more) => names = more,
            Err(fault) => return Err(fault),
        }
    }
    Ok(names)
}

#[cycle(expression_uses)]
#[tactic(auto, using(crate::proofs::Layers::part_layers))]
fn pair_uses(
    alloc: Global,
    dialect: Dialect,
    scopes: &mut Scopes,
    names: Names,
    pair: &BarePair,
) -> May<Names, Unbound>
    ensures uses { Gives ((pair_meaning pair.now).uses dialect scopes.old names) result }
    ensures same { OnOk result (scopes.new ≡ scopes.old) }
{
    two_use(alloc, dialect, scopes, names, &pair.key, &pair.value)
}

#[cycle(expression_uses)]
#[tactic(auto, using(crate::proofs::Walks::use_walks), unfolding(crate::specs::ExprUses::args_use))]
fn args_use(
    alloc: Global,
    dialect: Dialect,
    scopes: &mut Scopes,
    names: Names,
    args: &[BareArg],
) -> May<Names, Unbound>
    ensures uses { Gives (spec.args_use dialect scopes.old (map arg_meaning args.now) names) result }
    ensures same { OnOk result (scopes.new ≡ scopes.old) }
{
    let mut names = names;
    'each: for arg in args {
        match arg_uses(alloc, dialect, scopes, names, arg) {
            Ok(more) => names = more,
            Err(fault) => return Err(fault),
        }
    }
    Ok(names)
}

#[cycle(expression_uses)]
#[tactic(auto, using(crate::proofs::Layers::part_layers))]
fn arg_uses(
    alloc: Global,
    dialect: Dialect,
    scopes: &mut Scopes,
    names: Names,
    arg: &BareArg,
) -> May<Names, Unbound>
    ensures uses { Gives ((arg_meaning arg.now).uses dialect scopes.old names) result }
    ensures same { OnOk result (scopes.new ≡ scopes.old) }
{
    match arg {
        BareArg::Positional(value) => expr_uses(alloc, dialect, scopes, names, value),
        BareArg::Named { name: _, value } => expr_uses(alloc, dialect, scopes, names, value),
        BareArg::Star { value, line: _ } => expr_uses(alloc, dialect, scopes, names, value),
        BareArg::DoubleStar { value, line: _ } => expr_uses(alloc, dialect, scopes, names, value),
    }
}

#[cycle(expression_uses)]
#[tactic(auto, using(crate::proofs::Walks::use_walks), unfolding(crate::specs::ExprUses::params_use))]
pub(crate) fn params_use(
    alloc: Global,
    dialect: Dialect,
    scopes: &mut Scopes,
    names: Names,
    params: &[BareParam],
) -> May<Names, Unbound>
    ensures uses { Gives (spec.params_use dialect scopes.old (map param_meaning params.now) names) result }
    ensures same { OnOk result (scopes.new ≡ scopes.old) }
{
    let mut names = names;
    'params: for param in params {
        match param_uses(alloc, dialect, scopes, names, param) {
            Ok(more) => names = more,
            Err(fault) => return Err(fault),
        }
    }
    Ok(names)
}

#[cycle(expression_uses)]
#[tactic(auto, using(crate::proofs::Layers::part_layers))]
fn param_uses(
    alloc: Global,
    dialect: Dialect,
    scopes: &mut Scopes,
    names: Names,
    param: &BareParam,
) -> May<Names, Unbound>
    ensures uses { Gives ((param_meaning param.now).uses dialect scopes.old names) result }
    ensures same { OnOk result (scopes.new ≡ scopes.old) }
{
    match param {
        BareParam::Optional { name: _, default } => expr_uses(
            alloc, dialect, scopes, names, default,
        ),
        BareParam::Required(_) => Ok(names),
        BareParam::Bare { line: _ } => Ok(names),
        BareParam::Rest { name: _, line: _ } => Ok(names),
        BareParam::Keywords { name: _, line: _ } => Ok(names),
    }
}

#[cycle(expression_uses)]
#[tactic(auto, unfolding(crate::specs::ExprUses::maybe_uses))]
fn maybe_uses(
    alloc: Global,
    dialect: Dialect,
    scopes: &mut Scopes,
    names: Names,
    bound: &Option<Boxed<BareExpr>>,
) -> May<Names, Unbound>
    ensures uses { Gives (spec.maybe_uses dialect scopes.old (option_map meaning bound.now) names) result }
    ensures same { OnOk result (scopes.new ≡ scopes.old) }
{
    match bound {
        Some(bound) => expr_uses(alloc, dialect, scopes, names, bound.get()),
        None => Ok(names),
    }
}

#[cycle(expression_uses)]
#[tactic(auto, unfolding(crate::specs::ExprUses::two_use))]
pub(crate) fn two_use(
    alloc: Global,
    dialect: Dialect,
    scopes: &mut Scopes,
    names: Names,
    one: &BareExpr,
    other: &BareExpr,
) -> May<Names, Unbound>
    ensures uses { Gives (spec.two_use dialect scopes.old (meaning one.now) (meaning other.now) names) result }
    ensures same { OnOk result (scopes.new ≡ scopes.old) }
{
    let names = expr_uses(alloc, dialect, scopes, names, one)?;
    expr_uses(alloc, dialect, scopes, names, other)
}

#[cycle(expression_uses)]
#[tactic(auto, unfolding(crate::specs::ExprUses::cond_uses))]
fn cond_uses(
    alloc: Global,
    dialect: Dialect,
    scopes: &mut Scopes,
    names: Names,
    test: &BareExpr,
    chosen: &BareExpr,
    other: &BareExpr,
) -> May<Names, Unbound>
    ensures uses { Gives (spec.cond_uses dialect scopes.old (meaning test.now) (meaning chosen.now) (meaning
        other.now) names) result }
    ensures same { OnOk result (scopes.new ≡ scopes.old) }
{
    let names = expr_uses(alloc, dialect, scopes, names, chosen)?;
    two_use(alloc, dialect, scopes, names, test, other)
}

#[cycle(expression_uses)]
#[tactic(auto, unfolding(crate::specs::ExprUses::call_uses))]
fn call_uses(
    alloc: Global,
    dialect: Dialect,
    scopes: &mut Scopes,
    names: Names,
    args: &[BareArg],
    function: &BareExpr,
) -> May<Names, Unbound>
    ensures uses { Gives (spec.call_uses dialect scopes.old (meaning function.now) (map arg_meaning args.now)
        names) result }
    ensures same { OnOk result (scopes.new ≡ scopes.old) }
{
    let names = expr_uses(alloc, dialect, scopes, names, function)?;
    args_use(alloc, dialect, scopes, names, args)
}

#[cycle(expression_uses)]
#[tactic(auto, unfolding(crate::specs::ExprUses::lambda_uses))]
fn lambda_uses(
    alloc: Global,
    dialect: Dialect,
    scopes: &mut Scopes,
    names: Names,
    params: &[BareParam],
    body: &BareExpr,
) -> May<Names, Unbound>
    ensures uses { Gives (spec.lambda_uses dialect scopes.old (map param_meaning params.now) (meaning body.now)
        names) result }
    ensures same { OnOk result (scopes.new ≡ scopes.old) }
{
    let names = params_use(alloc, dialect, scopes, names, params)?;
    scopes.enter(param_variables(alloc, params)?)?;
    let names = expr_uses(alloc, dialect, scopes, names, body)?;
    scopes.leave();
    Ok(names)
}

#[cycle(expression_uses)]
#[tactic(auto, unfolding(crate::specs::ExprUses::list_comp_uses))]
fn list_comp_uses(
    alloc: Global,
    dialect: Dialect,
    scopes: &mut Scopes,
    names: Names,
    clauses: &[BareClause],
    item: &BareExpr,
) -> May<Names, Unbound>
    ensures uses { Gives (spec.list_comp_uses dialect scopes.old (meaning item.now) (map clause_meaning
        clauses.now) names) result }
    ensures same { OnOk result (scopes.new ≡ scopes.old) }
{
    scopes.enter(clause_variables(alloc, clauses)?)?;
    let names = expr_uses(alloc, dialect, scopes, names, item)?;
    let names = clauses_use(alloc, dialect, scopes, names, clauses)?;
    scopes.leave();
    Ok(names)
}

#[cycle(expression_uses)]
#[tactic(auto, unfolding(crate::specs::ExprUses::dict_comp_uses))]
fn dict_comp_uses(
    alloc: Global,
    dialect: Dialect,
    scopes: &mut Scopes,
    names: Names,
    clauses: &[BareClause],
    key: &BareExpr,
    value: &BareExpr,
) -> May<Names, Unbound>
    ensures uses { Gives (spec.dict_comp_uses dialect scopes.old (meaning key.now) (meaning value.now) (map
        clause_meaning clauses.now) names) result }
    ensures same { OnOk result (scopes.new ≡ scopes.old) }
{
    scopes.enter(clause_variables(alloc, clauses)?)?;
    let names = expr_uses(alloc, dialect, scopes, names, key)?;
    let names = expr_uses(alloc, dialect, scopes, names, value)?;
    let names = clauses_use(alloc, dialect, scopes, names, clauses)?;
    scopes.leave();
    Ok(names)
}

/// The clauses of a comprehension whose scope is entered.
#[cycle(expression_uses)]
#[tactic(auto, unfolding(crate::specs::ExprUses::clauses_use))]
fn clauses_use(
    alloc: Global,
    dialect: Dialect,
    scopes: &mut Scopes,
    names: Names,
    clauses: &[BareClause],
) -> May<Names, Unbound>
    ensures uses { Gives (spec.clauses_use dialect (outer scopes.old) scopes.old (map clause_meaning
        clauses.now) names) result }
    ensures same { OnOk result (scopes.new ≡ scopes.old) }
{
    match clauses {
        [first, more @ ..] => {
            let names = first_clause_uses(alloc, dialect, scopes, names, first)?;
            more_clauses_use(alloc, dialect, scopes, names, more)
        }
        [] => Ok(names),
    }
}

#[cycle(expression_uses)]
#[tactic(auto, using(crate::proofs::Layers::part_layers))]
fn first_clause_uses(
    alloc: Global,
    dialect: Dialect,
    scopes: &mut Scopes,
    names: Names,
    clause: &BareClause,
) -> May<Names, Unbound>
    ensures uses { Gives ((clause_meaning clause.now).uses dialect scopes.old (outer scopes.old) names) result }
    ensures same { OnOk result (scopes.new ≡ scopes.old) }
{
    match clause {
        BareClause::For { to, over } => {
            let names = expr_uses(alloc, dialect, scopes, names, to)?;
            over_uses(alloc, dialect, scopes, names, over)
        }
        BareClause::If(test) => expr_uses(alloc, dialect, scopes, names, test),
    }
}

/// The operand of the first `in`, outside the comprehension.
#[cycle(expression_uses)]
fn over_uses(
    alloc: Global,
    dialect: Dialect,
    scopes: &mut Scopes,
    names: Names,
    over: &BareExpr,
) -> May<Names, Unbound>
    ensures uses { Gives ((meaning over.now).uses dialect (outer scopes.old) names) result }
    ensures same { OnOk result (scopes.new ≡ scopes.old) }
{
    match scopes.leave() {
        Some(inner) => {
            let names = expr_uses(alloc, dialect, scopes, names, over)?;
            scopes.enter(inner)?;
            Ok(names)
        }
        None => expr_uses(alloc, dialect, scopes, names, over),
    }
}

#[cycle(expression_uses)]
#[tactic(auto, using(crate::proofs::Walks::use_walks))]
fn more_clauses_use(
    alloc: Global,
    dialect: Dialect,
    scopes: &mut Scopes,
    names: Names,
    clauses: &[BareClause],
) -> May<Names, Unbound>
    ensures uses { Gives (each_uses (map (λ (clause : ClauseMeaning). clause.uses dialect scopes.old
        scopes.old) (map clause_meaning clauses.now)) names) result }
    ensures same { OnOk result (scopes.new ≡ scopes.old) }
{
    let mut names = names;
    'clauses: for clause in clauses {
        match clause_uses(alloc, dialect, scopes, names, clause) {
            Ok(more) => names = more,
            Err(fault) => return Err(fault),
        }
    }
    Ok(names)
}

#[cycle(expression_uses)]
#[tactic(auto, using(crate::proofs::Layers::part_layers), unfolding(crate::specs::ExprUses::two_use))]
fn clause_uses(
    alloc: Global,
    dialect: Dialect,
    scopes: &mut Scopes,
    names: Names,
    clause: &BareClause,
) -> May<Names, Unbound>
    ensures uses { Gives ((clause_meaning clause.now).uses dialect scopes.old scopes.old names) result }
    ensures same { OnOk result (scopes.new ≡ scopes.old) }
{
    match clause {
        BareClause::For { to, over } => two_use(alloc, dialect, scopes, names, to, over),
        BareClause::If(test) => expr_uses(alloc, dialect, scopes, names, test),
    }
}
