//! The code of targets and statements.
ghost use Rattle.std.specs.Prelude.{◌≡◌, IfOk, OnOk};
ghost use Rattle.star_code.specs.Codes.{AugmentCode};
ghost use Rattle.star_compiler.specs.Emitted.{Emits, EmitsBound, EmitsKind, EmitsStmt, EmitsStmts};
ghost use Rattle.star_compiler.specs.Emitted.{StmtsBlock, TurnBlock};

use crate::emitter::{Emitter, put};
use bz_text::Mem;
use star_code::Instr;
use star_core::{BinOp, Expr, Stack, Stmt, StmtKind, Target, Val};

impl Emitter {
    /// The code of an augmented assignment to an expression.
    fn augment(&mut self, out: &mut Stack<Instr>, to: &Expr, op: BinOp, value: &Expr) -> Mem<()>
        ensures { OnOk result (Emits (λ t. AugmentCode t op value.now to.now) self.old self.new
            out.old out.new) }
    {
        match to {
            Expr::Name(var) => {
                put(
                    out,
                    Instr::AugmentName {
                        op,
                        hops: var.scope,
                        slot: var.slot,
                    },
                )?;
                self.expr(out, value)?;
                put(
                    out,
                    Instr::Name {
                        hops: var.scope,
                        slot: var.slot,
                    },
                )
            }
            Expr::Index { of, at } => {
                put(out, Instr::AugmentIndex(op))?;
                self.expr(out, value)?;
                put(out, Instr::Fetch)?;
                self.expr(out, at.get())?;
                self.expr(out, of.get())?;
                put(out, Instr::Tick)
            }
            _ => put(out, Instr::NotAssignable),
        }
    }

    /// Statements in a block of their own; its number.
    #[cycle(statement)]
    pub fn block(&mut self, stmts: &[Stmt]) -> Mem<usize>
        ensures { IfOk result (λ block. StmtsBlock stmts.now block self.old self.new) }
    {
        let mut out = Stack::new(self.alloc);
        self.stmts(&mut out, stmts)?;
        self.keep_block(out)
    }

    /// The block of a loop's turn: its target takes the item, then its statements run.
    #[cycle(statement)]
    fn turn_block(&mut self, stmts: &[Stmt], to: &Target) -> Mem<usize>
        ensures { IfOk result (λ block. TurnBlock to.now stmts.now block self.old self.new) }
    {
        let mut out = Stack::new(self.alloc);
        self.stmts(&mut out, stmts)?;
        self.target(&mut out, to)?;
        self.keep_block(out)
    }

    #[cycle(statement)]
    fn stmts(&mut self, out: &mut Stack<Instr>, stmts: &[Stmt]) -> Mem<()>
        ensures { OnOk result (EmitsStmts stmts.now self.old self.new out.old out.new) }
    {
        let mut left = stmts.len();
        'stmts: while left > 0 {
            left -= 1;
            self.stmt(out, &stmts[left])?;
        }
        Ok(())
    }

    #[cycle(statement)]
    fn stmt(&mut self, out: &mut Stack<Instr>, stmt: &Stmt) -> Mem<()>
        ensures { OnOk result (EmitsStmt stmt.now self.old self.new out.old out.new) }
    {
        self.kind(out, &stmt.kind)?;
        put(out, Instr::Begin(stmt.line))
    }

    #[cycle(statement)]
    fn kind(&mut self, out: &mut Stack<Instr>, kind: &StmtKind) -> Mem<()>
        ensures { OnOk result (EmitsKind kind.now self.old self.new out.old out.new) }
    {
        match kind {
            StmtKind::Def { function, to } => {
                put(
                    out,
                    Instr::Set {
                        hops: to.scope,
                        slot: to.slot,
                    },
                )?;
                self.make(out, *function)
            }
            StmtKind::If { test, then, other } => {
                let chosen = self.block(then.as_slice())?;
                let other = self.block(other.as_slice())?;
                put(out, Instr::If { chosen, other })?;
                self.expr(out, test)
            }
            StmtKind::For { to, over, body } => {
                let block = self.turn_block(body.as_slice(), to)?;
                put(out, Instr::For(block))?;
                self.expr(out, over)
            }
            StmtKind::Return(value) => {
                put(out, Instr::Return)?;
                self.returned(out, value)
            }
            StmtKind::Break => put(out, Instr::Break),
            StmtKind::Continue => put(out, Instr::Continue),
            StmtKind::Pass => Ok(()),
            StmtKind::Load(_) => Ok(()),
            StmtKind::Assign { to, value } => {
                self.target(out, to)?;
                self.expr(out, value)
            }
            StmtKind::Augment { place, op, value } => self.augment(out, place, *op, value),
            StmtKind::Value(value) => {
                put(out, Instr::Forget)?;
                self.expr(out, value)
            }
        }
    }

    /// The code of what a function gives back: None where nothing is written.
    fn returned(&mut self, out: &mut Stack<Instr>, value: &Option<Expr>) -> Mem<()>
        ensures { OnOk result (EmitsBound value.now self.old self.new out.old out.new) }
    {
        match value {
            None => put(out, Instr::Push(Val::None)),
            Some(expr) => self.expr(out, expr),
        }
    }
}
