//! Trees as texts: a word for each construct, in round brackets with its parts.
use crate::writer::Writer;
use bz_text::Txt;
use sqlite_items::Boxed;
use star_grammar::{
    BareArg, BareClause, BareExpr, BareFile, BareLoadName, BarePair, BareParam, BareStmt,
    BareStmtKind,
};
use star_trees::{BinOp, UnOp};
use std::alloc::{AllocError, Global};

fn binary_word(op: BinOp) -> &'static str {
    match op {
        BinOp::Or => "or",
        BinOp::And => "and",
        BinOp::Eq => "==",
        BinOp::Ne => "!=",
        BinOp::Lt => "<",
        BinOp::Gt => ">",
        BinOp::Le => "<=",
        BinOp::Ge => ">=",
        BinOp::Within => "in",
        BinOp::NotWithin => "notin",
        BinOp::BitOr => "|",
        BinOp::BitXor => "^",
        BinOp::BitAnd => "&",
        BinOp::Shl => "<<",
        BinOp::Shr => ">>",
        BinOp::Add => "+",
        BinOp::Sub => "-",
        BinOp::Mul => "*",
        BinOp::Div => "//",
        BinOp::Mod => "%",
    }
}

fn unary_word(op: UnOp) -> &'static str {
    match op {
        UnOp::Not => "not",
        UnOp::Plus => "+",
        UnOp::Minus => "-",
        UnOp::Invert => "~",
    }
}

#[cycle(expressions)]
fn write_expr(writer: &mut Writer, tree: &BareExpr) {
    match tree {
        BareExpr::Name(name) => writer.put(name.name.as_str()),
        BareExpr::Int(value) => writer.number(*value),
        BareExpr::Text(text) => write_text(writer, text),
        BareExpr::List(items) => write_list(writer, "(list", items.as_slice()),
        BareExpr::Tuple(items) => write_list(writer, "(tuple", items.as_slice()),
        BareExpr::Dict(pairs) => write_pairs(writer, pairs.as_slice()),
        BareExpr::ListComp { item, clauses } => {
            writer.put("(comp ");
            write_expr(writer, item.get());
            write_clauses(writer, clauses.as_slice())
        }
        BareExpr::DictComp {
            key,
            value,
            clauses,
        } => {
            writer.put("(dictcomp ");
            write_expr(writer, key.get());
            writer.put(":");
            write_expr(writer, value.get());
            write_clauses(writer, clauses.as_slice())
        }
        BareExpr::Bracketed(inner) => {
            writer.put("(round ");
            write_expr(writer, inner.get());
            writer.put(")")
        }
        _ => write_operation(writer, tree),
    }
}

/// Operators over their operands.
#[cycle(expressions)]
fn write_operation(writer: &mut Writer, tree: &BareExpr) {
    match tree {
        BareExpr::Unary { op, of } => {
            writer.open(unary_word(*op));
            write_expr(writer, of.get());
            writer.put(")")
        }
        BareExpr::Binary { op, left, right } => {
            writer.open(binary_word(*op));
            write_expr(writer, left.get());
            writer.put(" ");
            write_expr(writer, right.get());
            writer.put(")")
        }
        BareExpr::Cond { test, then, other } => {
            writer.put("(cond ");
            write_expr(writer, test.get());
            writer.put(" ");
            write_expr(writer, then.get());
            writer.put(" ");
            write_expr(writer, other.get());
            writer.put(")")
        }
        _ => write_rest(writer, tree),
    }
}

/// Functions, and what stands behind an operand.
#[cycle(expressions)]
fn write_rest(writer: &mut Writer, tree: &BareExpr) {
    match tree {
        BareExpr::Lambda { params, body, line } => {
            writer.put("(lambda");
            writer.line(*line);
            write_params(writer, params.as_slice());
            writer.put(" ");
            write_expr(writer, body.get());
            writer.put(")")
        }
        BareExpr::Attr { of, name } => {
            writer.put("(attr ");
            write_expr(writer, of.get());
            writer.put(" ");
            writer.put(name.as_str());
            writer.put(")")
        }
        BareExpr::Index { of, at } => {
            writer.put("(index ");
            write_expr(writer, of.get());
            writer.put(" ");
            write_expr(writer, at.get());
            writer.put(")")
        }
        BareExpr::Slice {
            of,
            begin,
            end,
            step,
        } => {
            writer.put("(slice ");
            write_expr(writer, of.get());
            write_bound(writer, begin);
            write_bound(writer, end);
            write_bound(writer, step);
            writer.put(")")
        }
        BareExpr::Call { function, args } => {
            writer.put("(call ");
            write_expr(writer, function.get());
            write_args(writer, args.as_slice())
        }
        _ => {}
    }
}

fn write_text(writer: &mut Writer, text: &Txt) {
    writer.put("'");
    writer.put(text.as_str());
    writer.put("'")
}

#[cycle(expressions)]
fn write_list(writer: &mut Writer, word: &str, items: &[BareExpr]) {
    writer.put(word);
    for item in items {
        writer.put(" ");
        write_expr(writer, item);
    }
    writer.put(")")
}

#[cycle(expressions)]
fn write_pairs(writer: &mut Writer, pairs: &[BarePair]) {
    writer.put("(dict");
    for pair in pairs {
        writer.put(" ");
        write_expr(writer, &pair.key);
        writer.put(":");
        write_expr(writer, &pair.value);
    }
    writer.put(")")
}

#[cycle(expressions)]
fn write_clauses(writer: &mut Writer, clauses: &[BareClause]) {
    for clause in clauses {
        match clause {
            BareClause::For { to, over } => {
                writer.put(" (for ");
                write_expr(writer, to);
                writer.put(" ");
                write_expr(writer, over);
            }
            BareClause::If(test) => {
                writer.put(" (if ");
                write_expr(writer, test);
            }
        }
        writer.put(")");
    }
    writer.put(")")
}

#[cycle(expressions)]
fn write_params(writer: &mut Writer, params: &[BareParam]) {
    for param in params {
        writer.put(" ");
        match param {
            BareParam::Required(name) => writer.put(name.as_str()),
            BareParam::Optional { name, default } => {
                writer.open(name.as_str());
                write_expr(writer, default);
                writer.put(")");
            }
            BareParam::Bare { line: _ } => writer.put("*"),
            BareParam::Rest { name, line: _ } => {
                writer.put("*");
                writer.put(name.as_str());
            }
            BareParam::Keywords { name, line: _ } => {
                writer.put("**");
                writer.put(name.as_str());
            }
        }
    }
}

#[cycle(expressions)]
fn write_bound(writer: &mut Writer, bound: &Option<Boxed<BareExpr>>) {
    writer.put(" ");
    match bound {
        Some(bound) => write_expr(writer, bound.get()),
        None => writer.put("_"),
    }
}

#[cycle(expressions)]
fn write_args(writer: &mut Writer, args: &[BareArg]) {
    for arg in args {
        writer.put(" ");
        match arg {
            BareArg::Positional(value) => write_expr(writer, value),
            BareArg::Named { name, value } => {
                writer.open(name.as_str());
                write_expr(writer, value);
                writer.put(")");
            }
            BareArg::Star { value, line: _ } => {
                writer.put("(* ");
                write_expr(writer, value);
                writer.put(")");
            }
            BareArg::DoubleStar { value, line: _ } => {
                writer.put("(** ");
                write_expr(writer, value);
                writer.put(")");
            }
        }
    }
    writer.put(")")
}

fn write_two(writer: &mut Writer, word: &str, left: &BareExpr, right: &BareExpr) {
    writer.open(word);
    write_expr(writer, left);
    writer.put(" ");
    write_expr(writer, right);
    writer.put(")")
}

#[cycle(statements)]
fn write_statements(writer: &mut Writer, statements: &[BareStmt]) {
    for statement in statements {
        write_statement(writer, statement);
        writer.put(";");
    }
}

#[cycle(statements)]
fn write_statement(writer: &mut Writer, statement: &BareStmt) {
    writer.line(statement.line);
    writer.put(" ");
    write_kind(writer, &statement.kind)
}

#[cycle(statements)]
fn write_kind(writer: &mut Writer, kind: &BareStmtKind) {
    match kind {
        BareStmtKind::Def { name, params, body } => {
            writer.open("def");
            writer.put(name.name.as_str());
            write_params(writer, params.as_slice());
            writer.put(" {");
            write_statements(writer, body.as_slice());
            writer.put("})")
        }
        BareStmtKind::If { test, then, other } => {
            writer.open("if");
            write_expr(writer, test);
            writer.put(" {");
            write_statements(writer, then.as_slice());
            writer.put("} {");
            write_statements(writer, other.as_slice());
            writer.put("})")
        }
        BareStmtKind::For { to, over, body } => {
            writer.open("for");
            write_expr(writer, to);
            writer.put(" ");
            write_expr(writer, over);
            writer.put(" {");
            write_statements(writer, body.as_slice());
            writer.put("})")
        }
        BareStmtKind::Return(value) => write_return(writer, value),
        BareStmtKind::Break => writer.put("break"),
        BareStmtKind::Continue => writer.put("continue"),
        BareStmtKind::Pass => writer.put("pass"),
        BareStmtKind::Load { file, names } => write_load(writer, file, names.items()),
        BareStmtKind::Assign { to, value } => write_two(writer, "=", to, value),
        BareStmtKind::Augment { place, op, value } => {
            writer.put("augment ");
            write_two(writer, binary_word(*op), place, value)
        }
        BareStmtKind::Value(value) => write_expr(writer, value),
    }
}

fn write_return(writer: &mut Writer, value: &Option<BareExpr>) {
    match value {
        Some(value) => {
            writer.put("(return ");
            write_expr(writer, value);
            writer.put(")")
        }
        None => writer.put("return"),
    }
}

fn write_load(writer: &mut Writer, file: &Txt, names: &[BareLoadName]) {
    writer.put("(load ");
    write_text(writer, file);
    for name in names {
        writer.put(" ");
        writer.put(name.name.local.as_str());
        writer.put("=");
        writer.put(name.name.remote.as_str());
        writer.line(name.line);
    }
    writer.put(")")
}

/// The statements of a file, each with its line.
pub(crate) fn tree_text(alloc: Global, file: &BareFile) -> Result<String, AllocError> {
    let mut writer = Writer::new(alloc);
    write_statements(&mut writer, file.body.as_slice());
    writer.finish()
}
