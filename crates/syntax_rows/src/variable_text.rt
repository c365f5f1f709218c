//! The variables of a file as a text, in the order of the file's: `NAME@SCOPE.SLOT`, and `#PLACE`
//! where a function stands.
use crate::writer::Writer;
use bz_text::Txt;
use sqlite_items::Boxed;
use star_trees::{
    Arg, Clause, Expr, ExprPair, File, FnBody, FnCode, Param, Stmt, StmtKind, Target,
};
use std::alloc::{AllocError, Global};

#[cycle(expressions)]
fn write_expr(writer: &mut Writer, tree: &Expr) {
    match tree {
        Expr::Name(variable) => writer.variable(variable),
        Expr::Int(_) => {}
        Expr::Text(_) => {}
        Expr::List(items) => write_items(writer, items.as_slice()),
        Expr::Tuple(items) => write_items(writer, items.as_slice()),
        Expr::Dict(pairs) => write_pairs(writer, pairs.as_slice()),
        Expr::ListComp { item, clauses } => {
            write_expr(writer, item.get());
            write_clauses(writer, clauses.as_slice())
        }
        Expr::DictComp {
            key,
            value,
            clauses,
        } => {
            write_expr(writer, key.get());
            write_expr(writer, value.get());
            write_clauses(writer, clauses.as_slice())
        }
        _ => write_operation(writer, tree),
    }
}

/// Operators, functions, and what stands behind an operand.
#[cycle(expressions)]
fn write_operation(writer: &mut Writer, tree: &Expr) {
    match tree {
        Expr::Unary { op: _, of } => write_expr(writer, of.get()),
        Expr::Binary { op: _, left, right } => {
            write_expr(writer, left.get());
            write_expr(writer, right.get())
        }
        Expr::Cond { test, then, other } => {
            write_expr(writer, then.get());
            write_expr(writer, test.get());
            write_expr(writer, other.get())
        }
        Expr::Lambda(place) => writer.function(*place),
        Expr::Attr { of, name: _ } => write_expr(writer, of.get()),
        Expr::Index { of, at } => {
            write_expr(writer, of.get());
            write_expr(writer, at.get())
        }
        Expr::Slice {
            of,
            begin,
            end,
            step,
        } => {
            write_expr(writer, of.get());
            write_bound(writer, begin);
            write_bound(writer, end);
            write_bound(writer, step)
        }
        Expr::Call { function, args } => {
            write_expr(writer, function.get());
            write_args(writer, args.as_slice())
        }
        _ => {}
    }
}

#[cycle(expressions)]
fn write_items(writer: &mut Writer, items: &[Expr]) {
    for item in items {
        write_expr(writer, item);
    }
}

#[cycle(expressions)]
fn write_pairs(writer: &mut Writer, pairs: &[ExprPair]) {
    for pair in pairs {
        write_expr(writer, &pair.key);
        write_expr(writer, &pair.value);
    }
}

#[cycle(expressions)]
fn write_bound(writer: &mut Writer, bound: &Option<Boxed<Expr>>) {
    match bound {
        Some(bound) => write_expr(writer, bound.get()),
        None => {}
    }
}

#[cycle(expressions)]
fn write_args(writer: &mut Writer, args: &[Arg]) {
    for arg in args {
        match arg {
            Arg::Positional(value) => write_expr(writer, value),
            Arg::Named { name: _, value } => write_expr(writer, value),
            Arg::Star(value) => write_expr(writer, value),
            Arg::DoubleStar(value) => write_expr(writer, value),
        }
    }
}

#[cycle(expressions)]
fn write_target(writer: &mut Writer, tree: &Target) {
    match tree {
        Target::Name(variable) => writer.variable(variable),
        Target::Index { of, at } => {
            write_expr(writer, of.get());
            write_expr(writer, at.get())
        }
        Target::Many(targets) => write_targets(writer, targets.as_slice()),
    }
}

#[cycle(expressions)]
fn write_targets(writer: &mut Writer, targets: &[Target]) {
    for one in targets {
        write_target(writer, one);
    }
}

#[cycle(expressions)]
fn write_clauses(writer: &mut Writer, clauses: &[Clause]) {
    for clause in clauses {
        match clause {
            Clause::For { to, over } => {
                write_target(writer, to);
                write_expr(writer, over);
            }
            Clause::If(test) => write_expr(writer, test),
        }
    }
}

#[cycle(statements)]
fn write_statements(writer: &mut Writer, statements: &[Stmt]) {
    for statement in statements {
        write_kind(writer, &statement.kind);
        writer.put("; ");
    }
}

#[cycle(statements)]
fn write_kind(writer: &mut Writer, tree: &StmtKind) {
    match tree {
        StmtKind::Def { function, to } => {
            writer.function(*function);
            writer.variable(to)
        }
        StmtKind::If { test, then, other } => {
            write_expr(writer, test);
            write_statements(writer, then.as_slice());
            write_statements(writer, other.as_slice())
        }
        StmtKind::For {
            to,
            over,
            body: turns,
        } => {
            write_target(writer, to);
            write_expr(writer, over);
            write_statements(writer, turns.as_slice())
        }
        StmtKind::Return(value) => write_returned(writer, value),
        StmtKind::Break => {}
        StmtKind::Continue => {}
        StmtKind::Pass => {}
        StmtKind::Load(place) => writer.function(*place),
        StmtKind::Assign { to, value } => {
            write_target(writer, to);
            write_expr(writer, value)
        }
        StmtKind::Augment {
            place,
            op: _,
            value,
        } => {
            write_expr(writer, place);
            write_expr(writer, value)
        }
        StmtKind::Value(value) => write_expr(writer, value),
    }
}

fn write_returned(writer: &mut Writer, value: &Option<Expr>) {
    match value {
        Some(value) => write_expr(writer, value),
        None => {}
    }
}

fn write_param(writer: &mut Writer, param: &Param) {
    match param {
        Param::Optional { name: _, default } => write_expr(writer, default),
        _ => {}
    }
}

fn write_function(writer: &mut Writer, code: &FnCode) {
    writer.put("| ");
    for one in code.params.items() {
        write_param(writer, one);
    }
    match &code.body {
        FnBody::Block(statements) => write_statements(writer, statements.as_slice()),
        FnBody::Value(value) => write_expr(writer, value.get()),
    }
}

fn write_names(writer: &mut Writer, free: &[Txt]) {
    writer.put("|");
    for name in free {
        writer.put(" ");
        writer.put(name.as_str());
    }
}

/// The file's statements, its functions, and its free names.
pub(crate) fn variable_text(alloc: Global, file: &File) -> Result<String, AllocError> {
    let mut writer = Writer::new(alloc);
    write_statements(&mut writer, file.body.as_slice());
    for code in file.functions.items() {
        write_function(&mut writer, code);
    }
    write_names(&mut writer, file.free.items());
    writer.finish()
}
