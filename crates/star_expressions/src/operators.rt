//! The operators, as tables.
ghost use Rattle.std.specs.Prelude.{◌≡◌};
ghost use Rattle.star_grammar.specs.Operators as spec;

use star_grammar::Sign;
use star_trees::{BinOp, UnOp};

/// A binary operator and its level, from the tightest.
fn chained(what: Sign) -> Option<(usize, BinOp)>
    ensures { result ≡ spec.chained what }
{
    match what {
        Sign::Star => Some((0, BinOp::Mul)),
        Sign::Slashes => Some((0, BinOp::Div)),
        Sign::Percent => Some((0, BinOp::Mod)),
        Sign::Plus => Some((1, BinOp::Add)),
        Sign::Minus => Some((1, BinOp::Sub)),
        Sign::ShiftLeft => Some((2, BinOp::Shl)),
        Sign::ShiftRight => Some((2, BinOp::Shr)),
        Sign::Ampersand => Some((3, BinOp::BitAnd)),
        Sign::Caret => Some((4, BinOp::BitXor)),
        Sign::Bar => Some((5, BinOp::BitOr)),
        Sign::And => Some((6, BinOp::And)),
        Sign::Or => Some((7, BinOp::Or)),
        _ => None,
    }
}

pub(crate) fn operator(level: usize, what: Sign) -> Option<BinOp>
    ensures { result ≡ spec.operator level what }
{
    match chained(what) {
        Some((own, op)) => { if own == level { Some(op) } else { None } }
        None => None,
    }
}

pub(crate) fn comparison(what: Sign) -> Option<BinOp>
    ensures { result ≡ spec.comparison what }
{
    match what {
        Sign::Equal => Some(BinOp::Eq),
        Sign::Unequal => Some(BinOp::Ne),
        Sign::Below => Some(BinOp::Lt),
        Sign::Above => Some(BinOp::Gt),
        Sign::AtMost => Some(BinOp::Le),
        Sign::AtLeast => Some(BinOp::Ge),
        Sign::In => Some(BinOp::Within),
        _ => None,
    }
}

pub(crate) fn prefix(what: Sign) -> Option<UnOp>
    ensures { result ≡ spec.prefix what }
{
    match what {
        Sign::Plus => Some(UnOp::Plus),
        Sign::Minus => Some(UnOp::Minus),
        Sign::Tilde => Some(UnOp::Invert),
        _ => None,
    }
}

pub(crate) fn negation(what: Sign) -> Option<UnOp>
    ensures { result ≡ spec.negation what }
{
    match what {
        Sign::Not => Some(UnOp::Not),
        _ => None,
    }
}

/// The operator of an augmented assignment.
pub(crate) fn augmented(what: Sign) -> Option<BinOp>
    ensures { result ≡ spec.augmented what }
{
    match what {
        Sign::PlusAssign => Some(BinOp::Add),
        Sign::MinusAssign => Some(BinOp::Sub),
        Sign::StarAssign => Some(BinOp::Mul),
        Sign::SlashesAssign => Some(BinOp::Div),
        Sign::PercentAssign => Some(BinOp::Mod),
        Sign::AmpersandAssign => Some(BinOp::BitAnd),
        Sign::BarAssign => Some(BinOp::BitOr),
        Sign::CaretAssign => Some(BinOp::BitXor),
        Sign::ShiftLeftAssign => Some(BinOp::Shl),
        Sign::ShiftRightAssign => Some(BinOp::Shr),
        _ => None,
    }
}
