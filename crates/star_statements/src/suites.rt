//! Statements with suites. The rules take the parser of nested statements as a value, so that each
//! is proved by itself.
ghost use Rattle.std.specs.Prelude.{◌≡◌, [], max, not};
ghost use Rattle.star_grammar.specs.ExpressionReading.{reads};
ghost use Rattle.star_grammar.specs.Readers.{joins, sees, turns};
ghost use Rattle.star_grammar.specs.StatementReading as spec;
ghost use Rattle.star_grammar.specs.StatementReading.{stands};
ghost use Rattle.star_trees.specs.Surroundings.{in_branch, in_function, in_loop};
ghost use Rattle.star_grammar.specs.declared.bare_statements.Part.TheVariants as part;
ghost use Rattle.star_grammar.specs.declared.symbols.Sign.TheVariants as s;
ghost use Rattle.star_grammar.specs.Rules.{deep};
ghost use Rattle.star_grammar.specs.Statements.{on_line};
ghost use Rattle.star_grammar.specs.declared.bare_statements.BareStmtKind as st;
ghost use Rattle.star_statements.specs.Remainders.{def_body, loop_body, loop_over};
ghost use Rattle.star_statements.specs.NestsStatements.{NestsStatements};
ghost use Rattle.star_expressions.specs.Reads.{Finds, Reads};

use crate::small_statements::simple;
use bz_text::{May, Txt};
use sqlite_items::Items;
use star_expressions::{
    Cursor, HeldTree, NoTree, are_params, checked, deep, expression, listed_params, only,
    target_list, test_list,
};
use star_grammar::{BareName, BareParam, BareStmt, BareStmtKind, Inside, Level, Part, Sign};
use star_trees::Held;
use std::alloc::Global;

/// `nested` reads statements in which so many constructs nest at most.
#[derive(Clone, Copy)]
pub(crate) struct Suites<F> {
    pub(crate) alloc: Global,
    pub(crate) nesting: usize,
    pub(crate) nested: F,
}

fn in_branch(inside: Inside) -> Inside
    ensures { result ≡ in_branch inside }
{
    Inside {
        top: false,
        function: inside.function,
        looping: inside.looping,
    }
}

fn in_loop(inside: Inside) -> Inside
    ensures { result ≡ in_loop inside }
{
    Inside {
        top: false,
        function: inside.function,
        looping: true,
    }
}

fn in_function() -> Inside
    ensures { result ≡ in_function }
{
    Inside {
        top: false,
        function: true,
        looping: false,
    }
}

fn loop_statement(
    line: u64,
    to: HeldTree,
    over: HeldTree,
    body: (Items<BareStmt>, usize),
) -> May<(BareStmt, usize), NoTree>
    ensures { Finds (deep (on_line line (st.For to.0 over.0 body.0)) (max to.1 (max over.1 body.1)))
        result }
{
    let (to, depth) = to.release();
    let (over, own) = over.release();
    let (body, last) = body;
    let kind = BareStmtKind::For { to, over, body };
    deep(BareStmt { line, kind }, depth.max(own.max(last)))
}

fn def_statement(
    line: u64,
    name: BareName,
    params: (Items<BareParam>, usize),
    body: (Items<BareStmt>, usize),
) -> May<(BareStmt, usize), NoTree>
    ensures { Finds (deep (on_line line (st.Def name params.0 body.0)) (max params.1 body.1)) result }
{
    let (params, depth) = params;
    let (body, own) = body;
    let kind = BareStmtKind::Def { name, params, body };
    deep(BareStmt { line, kind }, depth.max(own))
}

impl<
    F: Fn(Global, &mut Cursor<'_>, usize, Part, Inside) -> May<(Items<BareStmt>, usize), NoTree>,
> Suites<F> {
    fn nested(
        &self,
        symbols: &mut Cursor<'_>,
        part: Part,
        inside: Inside,
    ) -> May<(Items<BareStmt>, usize), NoTree>
        requires { NestsStatements self.now.nesting (F.pre self.now.nested) (F.post self.now.nested) }
        ensures { Reads (stands self.now.nesting part inside symbols.old.rest.now) result
            symbols.new.rest.now }
    {
        (self.nested)(self.alloc, symbols, self.nesting, part, inside)
    }

    /// `{Statement}`, up to an outdent.
    #[tactic(auto, unfolding(star_grammar::specs::Readers::rounds))]
    fn statements(
        &self,
        symbols: &mut Cursor<'_>,
        inside: Inside,
    ) -> May<(Items<BareStmt>, usize), NoTree>
        requires { NestsStatements self.now.nesting (F.pre self.now.nested) (F.post self.now.nested) }
        ensures { Reads (turns (λ i. not (sees s.Outdent i)) (joins (stands self.now.nesting
            part.Statement inside)) ([], 0) symbols.old.rest.now) result symbols.new.rest.now }
    {
        let mut body = Items::new(self.alloc);
        let mut depth = 0;
        'turns: for turn in 0..symbols.left() {
            if symbols.sees(Sign::Outdent) {
                return Ok((body, depth));
            }
            let (more, own) = self.nested(symbols, Part::Statement, inside)?;
            body.append(more)?;
            depth = depth.max(own);
        }
        Ok((body, depth))
    }

    /// `indent {Statement} outdent`
    #[tactic(auto, unfolding(star_grammar::specs::StatementReading::block))]
    fn block(
        &self,
        symbols: &mut Cursor<'_>,
        inside: Inside,
    ) -> May<(Items<BareStmt>, usize), NoTree>
        requires { NestsStatements self.now.nesting (F.pre self.now.nested) (F.post self.now.nested) }
        ensures { Reads (spec.block (reads self.now.nesting) (stands self.now.nesting) inside
            symbols.old.rest.now) result symbols.new.rest.now }
    {
        symbols.expect(Sign::Indent)?;
        let body = self.statements(symbols, inside)?;
        symbols.expect(Sign::Outdent)?;
        Ok(body)
    }

    /// `Suite = newline indent {Statement} outdent | Simple`
    #[tactic(auto, unfolding(star_grammar::specs::StatementReading::suite))]
    fn suite(
        &self,
        symbols: &mut Cursor<'_>,
        inside: Inside,
    ) -> May<(Items<BareStmt>, usize), NoTree>
        requires { NestsStatements self.now.nesting (F.pre self.now.nested) (F.post self.now.nested) }
        ensures { Reads (spec.suite (reads self.now.nesting) (stands self.now.nesting) inside
            symbols.old.rest.now) result symbols.new.rest.now }
    {
        if symbols.eat(Sign::Newline) {
            self.block(symbols, inside)
        } else {
            self.nested(symbols, Part::Line, inside)
        }
    }

    /// `':' Suite`, behind `else`.
    #[tactic(auto, unfolding(star_grammar::specs::StatementReading::last_branch))]
    fn last_branch(
        &self,
        symbols: &mut Cursor<'_>,
        inside: Inside,
    ) -> May<(Items<BareStmt>, usize), NoTree>
        requires { NestsStatements self.now.nesting (F.pre self.now.nested) (F.post self.now.nested) }
        ensures { Reads (spec.last_branch (reads self.now.nesting) (stands self.now.nesting) inside
            symbols.old.rest.now) result symbols.new.rest.now }
    {
        symbols.expect(Sign::Colon)?;
        self.suite(symbols, in_branch(inside))
    }

    /// What stands behind a branch: an `elif`, an `else` or neither.
    #[tactic(auto, unfolding(star_grammar::specs::StatementReading::otherwise))]
    fn otherwise(
        &self,
        symbols: &mut Cursor<'_>,
        inside: Inside,
    ) -> May<(Items<BareStmt>, usize), NoTree>
        requires { NestsStatements self.now.nesting (F.pre self.now.nested) (F.post self.now.nested) }
        ensures { Reads (spec.otherwise (reads self.now.nesting) (stands self.now.nesting) inside
            symbols.old.rest.now) result symbols.new.rest.now }
    {
        if symbols.sees(Sign::Elif) {
            self.nested(symbols, Part::Elif, inside)
        } else if symbols.eat(Sign::Else) {
            self.last_branch(symbols, inside)
        } else {
            Ok((Items::new(self.alloc), 0))
        }
    }

    /// `Test ':' Suite` and what follows, behind `if` or `elif`.
    #[tactic(auto, unfolding(star_grammar::specs::StatementReading::branch))]
    fn branch(
        &self,
        symbols: &mut Cursor<'_>,
        inside: Inside,
        line: u64,
    ) -> May<(Items<BareStmt>, usize), NoTree>
        requires { NestsStatements self.now.nesting (F.pre self.now.nested) (F.post self.now.nested) }
        ensures { Reads (spec.branch (reads self.now.nesting) (stands self.now.nesting) inside line
            symbols.old.rest.now) result symbols.new.rest.now }
    {
        let test = expression(self.alloc, symbols, self.nesting, Level::Test)?;
        let test = Held::new(test);
        symbols.expect(Sign::Colon)?;
        let (then, own) = self.suite(symbols, in_branch(inside))?;
        let (other, last) = self.otherwise(symbols, inside)?;
        let (test, depth) = test.release();
        let kind = BareStmtKind::If { test, then, other };
        let (statement, depth) = deep(BareStmt { line, kind }, depth.max(own.max(last)))?;
        Ok((only(self.alloc, statement)?, depth))
    }

    /// The suite of a loop.
    fn loop_body(
        &self,
        symbols: &mut Cursor<'_>,
        inside: Inside,
        line: u64,
        to: HeldTree,
        over: HeldTree,
    ) -> May<(Items<BareStmt>, usize), NoTree>
        requires { NestsStatements self.now.nesting (F.pre self.now.nested) (F.post self.now.nested) }
        ensures { Reads (loop_body (reads self.now.nesting) (stands self.now.nesting) inside line to over
            symbols.old.rest.now) result symbols.new.rest.now }
    {
        let body = self.suite(symbols, in_loop(inside))?;
        let (statement, depth) = loop_statement(line, to, over, body)?;
        Ok((only(self.alloc, statement)?, depth))
    }

    /// `Expression ':' Suite`, behind `in`.
    fn loop_over(
        &self,
        symbols: &mut Cursor<'_>,
        inside: Inside,
        line: u64,
        to: HeldTree,
    ) -> May<(Items<BareStmt>, usize), NoTree>
        requires { NestsStatements self.now.nesting (F.pre self.now.nested) (F.post self.now.nested) }
        ensures { Reads (loop_over (reads self.now.nesting) (stands self.now.nesting) inside line to
            symbols.old.rest.now) result symbols.new.rest.now }
    {
        let over = Held::new(test_list(self.alloc, symbols, self.nesting)?);
        symbols.expect(Sign::Colon)?;
        self.loop_body(symbols, inside, line, to, over)
    }

    /// `Vars 'in' Expression ':' Suite`, behind `for`.
    fn looped(
        &self,
        symbols: &mut Cursor<'_>,
        inside: Inside,
        line: u64,
    ) -> May<(Items<BareStmt>, usize), NoTree>
        requires { NestsStatements self.now.nesting (F.pre self.now.nested) (F.post self.now.nested) }
        ensures { Reads (spec.loop (reads self.now.nesting) (stands self.now.nesting) inside line
            symbols.old.rest.now) result symbols.new.rest.now }
    {
        let to = Held::new(target_list(self.alloc, symbols, self.nesting)?);
        symbols.expect(Sign::In)?;
        self.loop_over(symbols, inside, line, to)
    }

    /// The suite of a function.
    fn def_body(
        &self,
        symbols: &mut Cursor<'_>,
        name: BareName,
        line: u64,
        params: (Items<BareParam>, usize),
    ) -> May<(Items<BareStmt>, usize), NoTree>
        requires { NestsStatements self.now.nesting (F.pre self.now.nested) (F.post self.now.nested) }
        ensures { Reads (def_body (reads self.now.nesting) (stands self.now.nesting) name line params
            symbols.old.rest.now) result symbols.new.rest.now }
    {
        let body = self.suite(symbols, in_function())?;
        let (statement, depth) = def_statement(line, name, params, body)?;
        Ok((only(self.alloc, statement)?, depth))
    }

    /// `'(' [Param {',' Param} [',']] ')' ':' Suite`, behind `def` and the name.
    #[tactic(auto, unfolding(star_grammar::specs::StatementReading::defined))]
    fn defined(
        &self,
        symbols: &mut Cursor<'_>,
        name: Txt,
        named_on: u64,
        line: u64,
    ) -> May<(Items<BareStmt>, usize), NoTree>
        requires { NestsStatements self.now.nesting (F.pre self.now.nested) (F.post self.now.nested) }
        ensures { Reads (spec.defined (reads self.now.nesting) (stands self.now.nesting) name named_on
            line symbols.old.rest.now) result symbols.new.rest.now }
    {
        symbols.expect(Sign::LeftRound)?;
        let (params, depth) = listed_params(self.alloc, symbols, self.nesting)?;
        checked(are_params(self.alloc, &params)?)?;
        symbols.expect(Sign::Colon)?;
        let name = BareName {
            name,
            line: named_on,
        };
        self.def_body(symbols, name, line, (params, depth))
    }

    /// What stands behind `def`.
    #[tactic(auto, unfolding(star_grammar::specs::StatementReading::definition))]
    fn definition(
        &self,
        symbols: &mut Cursor<'_>,
        line: u64,
    ) -> May<(Items<BareStmt>, usize), NoTree>
        requires { NestsStatements self.now.nesting (F.pre self.now.nested) (F.post self.now.nested) }
        ensures { Reads (spec.definition (reads self.now.nesting) (stands self.now.nesting) line
            symbols.old.rest.now) result symbols.new.rest.now }
    {
        let named_on = symbols.line();
        let name = symbols.name(self.alloc)?;
        self.defined(symbols, name, named_on, line)
    }

    /// `Statement = Def | If | For | Simple`
    #[tactic(auto, unfolding(star_grammar::specs::StatementReading::statement))]
    fn statement(
        &self,
        symbols: &mut Cursor<'_>,
        inside: Inside,
    ) -> May<(Items<BareStmt>, usize), NoTree>
        requires { NestsStatements self.now.nesting (F.pre self.now.nested) (F.post self.now.nested) }
        ensures { Reads (spec.statement (reads self.now.nesting) (stands self.now.nesting) inside
            symbols.old.rest.now) result symbols.new.rest.now }
    {
        let line = symbols.line();
        if symbols.eat(Sign::Def) {
            self.definition(symbols, line)
        } else if symbols.eat(Sign::If) {
            self.branch(symbols, inside, line)
        } else if symbols.eat(Sign::For) {
            self.looped(symbols, inside, line)
        } else {
            simple(self.alloc, symbols, self.nesting, inside)
        }
    }

    /// From an `elif` on.
    #[tactic(auto, unfolding(star_grammar::specs::StatementReading::elif))]
    fn elif(
        &self,
        symbols: &mut Cursor<'_>,
        inside: Inside,
    ) -> May<(Items<BareStmt>, usize), NoTree>
        requires { NestsStatements self.now.nesting (F.pre self.now.nested) (F.post self.now.nested) }
        ensures { Reads (spec.elif (reads self.now.nesting) (stands self.now.nesting) inside
            symbols.old.rest.now) result symbols.new.rest.now }
    {
        let line = symbols.line();
        symbols.expect(Sign::Elif)?;
        self.branch(symbols, inside, line)
    }

    pub(crate) fn part(
        &self,
        symbols: &mut Cursor<'_>,
        part: Part,
        inside: Inside,
    ) -> May<(Items<BareStmt>, usize), NoTree>
        requires { NestsStatements self.now.nesting (F.pre self.now.nested) (F.post self.now.nested) }
        ensures { Reads (spec.of (reads self.now.nesting) (stands self.now.nesting) part inside
            symbols.old.rest.now) result symbols.new.rest.now }
    {
        match part {
            Part::Statement => self.statement(symbols, inside),
            Part::Line => simple(self.alloc, symbols, self.nesting, inside),
            Part::Elif => self.elif(symbols, inside),
        }
    }
}
