//! The code of expressions.
ghost use Rattle.std.specs.Prelude.{◌≡◌, [], ◌∷◌, IfOk, OnOk, map, nat_lt, option_copied};
ghost use Rattle.std.specs.Prelude.{slice_get};
ghost use Rattle.star_compiler.specs.Emitted.{BlockPut, CallPut, ClauseEmitted, ClauseTurn};
ghost use Rattle.star_compiler.specs.Emitted.{EmitsArg, EmitsArgs, EmitsBound, EmitsComprehension};
ghost use Rattle.star_compiler.specs.Emitted.{EmitsExpr, EmitsExprs, EmitsPairs, EmitsTarget};
ghost use Rattle.star_compiler.specs.Emitted.{EmitsTargets, ExprBlock, FirstClause, ItemFill, Makes};
ghost use Rattle.star_meaning.specs.Arguments as arguments;
ghost use Rattle.star_meaning.specs.Arguments.{way_of};
ghost use Rattle.star_meaning.specs.Expressions as meaning;

use crate::emitter::{Emitter, put};
use bz_text::Mem;
use sqlite_items::{Boxed, Items};
use star_code::Instr;
use star_core::{Arg, BinOp, Clause, Expr, ExprPair, Stack, Target, Val};
use star_meaning::Way;
use std::alloc::Global;

/// The truth of the left operand on which an operator goes on to its right one, where it may leave
/// that alone.
#[tactic(auto, unfolding(star_meaning::specs::Expressions::goes_right_on))]
pub fn goes_right_on(op: BinOp) -> Option<bool>
    ensures { result ≡ meaning.goes_right_on op }
{
    match op {
        BinOp::And => Some(true),
        BinOp::Or => Some(false),
        _ => None,
    }
}

impl Emitter {
    #[cycle(expression)]
    pub fn expr(&mut self, out: &mut Stack<Instr>, expr: &Expr) -> Mem<()>
        ensures { OnOk result (EmitsExpr expr.now self.old self.new out.old out.new) }
    {
        match expr {
            Expr::Name(var) => put(
                out,
                Instr::Name {
                    hops: var.scope,
                    slot: var.slot,
                },
            ),
            Expr::Int(number) => put(out, Instr::Constant(Val::Int(*number))),
            Expr::Text(text) => {
                let value = self.literal(text)?;
                put(out, Instr::Constant(value))
            }
            Expr::List(items) => {
                put(out, Instr::List(items.len()))?;
                self.exprs(out, items.as_slice())?;
                put(out, Instr::Tick)
            }
            Expr::Tuple(items) => {
                put(out, Instr::Tuple(items.len()))?;
                self.exprs(out, items.as_slice())?;
                put(out, Instr::Tick)
            }
            Expr::Dict(pairs) => {
                self.pairs(out, pairs.as_slice())?;
                put(out, Instr::Dict)?;
                put(out, Instr::Tick)
            }
            Expr::ListComp { item, clauses } => {
                let fill = self.item_fill(item.get())?;
                self.comprehension(out, fill, clauses.as_slice())?;
                put(out, Instr::List(0))?;
                put(out, Instr::Tick)
            }
            Expr::DictComp {
                key,
                value,
                clauses,
            } => {
                let mut fill = Stack::new(self.alloc);
                put(&mut fill, Instr::CollectEntry)?;
                self.expr(&mut fill, value.get())?;
                self.expr(&mut fill, key.get())?;
                self.comprehension(out, fill, clauses.as_slice())?;
                put(out, Instr::Dict)?;
                put(out, Instr::Tick)
            }
            Expr::Unary { op, of } => {
                put(out, Instr::Unary(*op))?;
                self.expr(out, of.get())?;
                put(out, Instr::Tick)
            }
            Expr::Binary { op, left, right } => match goes_right_on(*op) {
                None => {
                    put(out, Instr::Binary(*op))?;
                    self.expr(out, right.get())?;
                    self.expr(out, left.get())?;
                    put(out, Instr::Tick)
                }
                Some(wanted) => {
                    let block = self.expr_block(right.get())?;
                    put(out, Instr::Short { wanted, block })?;
                    self.expr(out, left.get())?;
                    put(out, Instr::Tick)
                }
            },
            Expr::Cond { test, then, other } => {
                let chosen = self.expr_block(then.get())?;
                let other = self.expr_block(other.get())?;
                put(out, Instr::If { chosen, other })?;
                self.expr(out, test.get())?;
                put(out, Instr::Tick)
            }
            Expr::Lambda(function) => {
                self.make(out, *function)?;
                put(out, Instr::Tick)
            }
            Expr::Attr { of, name } => {
                let index = self.keep_name(name)?;
                put(out, Instr::Attr(index))?;
                self.expr(out, of.get())?;
                put(out, Instr::Tick)
            }
            Expr::Index { of, at } => {
                put(out, Instr::Index)?;
                self.expr(out, at.get())?;
                self.expr(out, of.get())?;
                put(out, Instr::Tick)
            }
            Expr::Slice {
                of,
                begin,
                end,
                step,
            } => {
                put(out, Instr::Slice)?;
                self.bound(out, step)?;
                self.bound(out, end)?;
                self.bound(out, begin)?;
                self.expr(out, of.get())?;
                put(out, Instr::Tick)
            }
            Expr::Call { function, args } => {
                self.call(out, args.as_slice())?;
                self.args(out, args.as_slice())?;
                self.expr(out, function.get())?;
                put(out, Instr::Tick)
            }
        }
    }

    /// An expression's code in a block of its own; its number.
    #[cycle(expression)]
    fn expr_block(&mut self, expr: &Expr) -> Mem<usize>
        ensures { IfOk result (λ block. ExprBlock expr.now block self.old self.new) }
    {
        let mut out = Stack::new(self.alloc);
        self.expr(&mut out, expr)?;
        self.keep_block(out)
    }

    #[cycle(expression)]
    fn exprs(&mut self, out: &mut Stack<Instr>, exprs: &[Expr]) -> Mem<()>
        ensures { OnOk result (EmitsExprs exprs.now self.old self.new out.old out.new) }
    {
        let mut left = exprs.len();
        'exprs: while left > 0 {
            left -= 1;
            self.expr(out, &exprs[left])?;
        }
        Ok(())
    }

    #[cycle(expression)]
    fn bound(&mut self, out: &mut Stack<Instr>, bound: &Option<Boxed<Expr>>) -> Mem<()>
        ensures { OnOk result (EmitsBound bound.now self.old self.new out.old out.new) }
    {
        match bound {
            None => put(out, Instr::Push(Val::None)),
            Some(expr) => self.expr(out, expr.get()),
        }
    }

    #[cycle(expression)]
    fn pairs(&mut self, out: &mut Stack<Instr>, pairs: &[ExprPair]) -> Mem<()>
        ensures { OnOk result (EmitsPairs pairs.now self.old self.new out.old out.new) }
    {
        let mut left = pairs.len();
        'pairs: while left > 0 {
            left -= 1;
            let pair = &pairs[left];
            put(out, Instr::Entry)?;
            self.expr(out, &pair.value)?;
            self.expr(out, &pair.key)?;
        }
        Ok(())
    }

    #[cycle(expression)]
    fn arg(&mut self, out: &mut Stack<Instr>, arg: &Arg) -> Mem<()>
        ensures { OnOk result (EmitsArg arg.now self.old self.new out.old out.new) }
    {
        match arg {
            Arg::Positional(value) => self.expr(out, value),
            Arg::Named { name: _, value } => self.expr(out, value),
            Arg::Star(value) => {
                put(out, Instr::CheckItems)?;
                self.expr(out, value)
            }
            Arg::DoubleStar(value) => {
                put(out, Instr::CheckKeywords)?;
                self.expr(out, value)
            }
        }
    }

    #[cycle(expression)]
    fn args(&mut self, out: &mut Stack<Instr>, args: &[Arg]) -> Mem<()>
        ensures { OnOk result (EmitsArgs args.now self.old self.new out.old out.new) }
    {
        let mut left = args.len();
        'args: while left > 0 {
            left -= 1;
            self.arg(out, &args[left])?;
        }
        Ok(())
    }

    /// What a comprehension of a list does in each turn.
    #[cycle(expression)]
    fn item_fill(&mut self, item: &Expr) -> Mem<Stack<Instr>>
        ensures { IfOk result (λ fill. ItemFill item.now self.old self.new fill) }
    {
        let mut fill = Stack::new(self.alloc);
        put(&mut fill, Instr::Collect)?;
        self.expr(&mut fill, item)?;
        Ok(fill)
    }

    /// The code of a comprehension's clauses round what is done in each turn.
    #[cycle(expression)]
    fn comprehension(
        &mut self,
        out: &mut Stack<Instr>,
        fill: Stack<Instr>,
        clauses: &[Clause],
    ) -> Mem<()>
        ensures { OnOk result (EmitsComprehension clauses.now fill self.old self.new out.old
            out.new) }
    {
        let mut code = fill;
        let mut left = clauses.len();
        'clauses: while left > 1 {
            left -= 1;
            code = self.clause(code, &clauses[left])?;
        }
        match first_of(clauses) {
            None => put(out, Instr::NotAssignable),
            Some(first) => self.first_clause(out, code, first),
        }
    }

    /// The code of a clause round that of the clauses behind it.
    #[cycle(expression)]
    fn clause(&mut self, code: Stack<Instr>, clause: &Clause) -> Mem<Stack<Instr>>
        ensures { IfOk result (λ out. ClauseEmitted clause.now code self.old self.new out) }
    {
        match clause {
            Clause::For { to, over } => {
                let block = self.turn(code, to)?;
                let mut out = Stack::new(self.alloc);
                put(&mut out, Instr::For(block))?;
                self.expr(&mut out, over)?;
                Ok(out)
            }
            Clause::If(test) => {
                let chosen = self.keep_block(code)?;
                let other = self.keep_block(Stack::new(self.alloc))?;
                let mut out = Stack::new(self.alloc);
                put(&mut out, Instr::If { chosen, other })?;
                self.expr(&mut out, test)?;
                Ok(out)
            }
        }
    }

    /// The block of a clause's turn: its target takes the item first.
    #[cycle(expression)]
    fn turn(&mut self, code: Stack<Instr>, to: &Target) -> Mem<usize>
        ensures { IfOk result (λ block. ClauseTurn to.now code block self.old self.new) }
    {
        let mut out = code;
        self.target(&mut out, to)?;
        self.keep_block(out)
    }

    /// The first clause, whose operand lies outside the comprehension's scope.
    #[cycle(expression)]
    fn first_clause(
        &mut self,
        out: &mut Stack<Instr>,
        code: Stack<Instr>,
        clause: &Clause,
    ) -> Mem<()>
        ensures { OnOk result (FirstClause clause.now code self.old self.new out.old out.new) }
    {
        match clause {
            Clause::For { to, over } => {
                let block = self.turn(code, to)?;
                let inside = self.loop_block(block)?;
                put(out, Instr::Within(inside))?;
                self.expr(out, over)
            }
            Clause::If(_) => put(out, Instr::NotAssignable),
        }
    }

    #[cycle(expression)]
    pub fn target(&mut self, out: &mut Stack<Instr>, target: &Target) -> Mem<()>
        ensures { OnOk result (EmitsTarget target.now self.old self.new out.old out.new) }
    {
        match target {
            Target::Name(var) => put(
                out,
                Instr::Set {
                    hops: var.scope,
                    slot: var.slot,
                },
            ),
            Target::Index { of, at } => {
                put(out, Instr::SetIndex)?;
                self.expr(out, at.get())?;
                self.expr(out, of.get())
            }
            Target::Many(targets) => {
                self.targets(out, targets.as_slice())?;
                put(out, Instr::Unpack(targets.len()))
            }
        }
    }

    #[cycle(expression)]
    fn targets(&mut self, out: &mut Stack<Instr>, targets: &[Target]) -> Mem<()>
        ensures { OnOk result (EmitsTargets targets.now self.old self.new out.old out.new) }
    {
        let mut left = targets.len();
        'targets: while left > 0 {
            left -= 1;
            self.target(out, &targets[left])?;
        }
        Ok(())
    }

    /// A block that is a loop alone.
    fn loop_block(&mut self, block: usize) -> Mem<usize>
        ensures { IfOk result (λ inside. BlockPut (Instr.For block ∷ []) inside self.old
            self.new) }
    {
        let mut out = Stack::new(self.alloc);
        put(&mut out, Instr::For(block))?;
        self.keep_block(out)
    }

    /// The code that makes a function.
    pub fn make(&self, out: &mut Stack<Instr>, function: u32) -> Mem<()>
        ensures { OnOk result (Makes self.now function out.old out.new) }
    {
        if is_before(function, self.least) {
            return put(out, Instr::NotAssignable);
        }
        put(out, Instr::Def(function))?;
        put(out, Instr::Defaults(function))
    }

    /// The instructions that call with evaluated arguments.
    fn call(&mut self, out: &mut Stack<Instr>, args: &[Arg]) -> Mem<()>
        ensures { OnOk result (CallPut args.now self.old self.new out.old out.new) }
    {
        let ways = ways(self.alloc, args)?;
        if all_plain(ways.as_slice()) {
            return put(out, Instr::Call(args.len()));
        }
        let shape = self.keep_shape(ways)?;
        put(out, Instr::CallGathered)?;
        put(out, Instr::Gather(shape))
    }
}

fn first_of(clauses: &[Clause]) -> Option<&Clause>
    ensures { option_copied result ≡ slice_get clauses.now 0 }
{
    clauses.get(0)
}

/// Whether a function stands before another one in its file.
fn is_before(function: u32, least: usize) -> bool
    ensures { result ≡ nat_lt function least }
{
    (function as usize) < least
}

/// How an argument is given.
fn way(alloc: Global, arg: &Arg) -> Mem<Way>
    ensures { IfOk result (λ way. way ≡ way_of arg.now) }
{
    match arg {
        Arg::Positional(_) => Ok(Way::Positional),
        Arg::Named { name, value: _ } => Ok(Way::Named(name.copy(alloc)?)),
        Arg::Star(_) => Ok(Way::Star),
        Arg::DoubleStar(_) => Ok(Way::DoubleStar),
    }
}

fn ways(alloc: Global, args: &[Arg]) -> Mem<Items<Way>>
    ensures { IfOk result (λ ways. ways ≡ map way_of args.now) }
{
    let mut ways = Items::new(alloc);
    'ways: for arg in args {
        ways.push(way(alloc, arg)?)?;
    }
    Ok(ways)
}

fn is_plain(way: &Way) -> bool
    ensures { result ≡ arguments.is_plain way.now }
{
    match way {
        Way::Positional => true,
        _ => false,
    }
}

/// Whether each argument is given by its position.
#[tactic(auto, unfolding(star_meaning::specs::Arguments::all_plain))]
fn all_plain(ways: &[Way]) -> bool
    ensures { result ≡ arguments.all_plain ways.now }
{
    for way in ways {
        if !is_plain(way) {
            return false;
        }
    }
    true
}
