//! Targets and places.
ghost use Rattle.std.specs.Prelude.{◌≡◌, map};
ghost use Rattle.star_grammar.specs.Orders as spec;
ghost use Rattle.star_trees.specs.Lists as lists;

use star_grammar::BareExpr;

#[cycle(targets)]
pub fn is_target(expression: &BareExpr) -> bool
    ensures { result ≡ spec.is_target expression.now }
{
    match expression {
        BareExpr::Name(_) => true,
        BareExpr::Index { of: _, at: _ } => true,
        BareExpr::Bracketed(target) => is_target(target.get()),
        BareExpr::Tuple(targets) => are_targets(targets.as_slice()),
        BareExpr::List(targets) => are_targets(targets.as_slice()),
        _ => false,
    }
}

/// Whether there is one, and each is a target.
#[cycle(targets)]
#[tactic(auto, using(crate::proofs::ItemTests::item_tests))]
fn are_targets(targets: &[BareExpr]) -> bool
    ensures { result ≡ lists.some_and_all (map spec.is_target targets.now) }
{
    if targets.len() == 0 {
        return false;
    }
    'targets: for target in targets {
        if !is_target(target) {
            return false;
        }
    }
    true
}

/// Whether it is a name or an index, without round brackets round it.
#[tactic(auto, unfolding(star_grammar::specs::Orders::is_place))]
pub fn is_place(expression: &BareExpr) -> bool
    ensures { result ≡ spec.is_place expression.now }
{
    match expression {
        BareExpr::Name(_) => true,
        BareExpr::Index { of: _, at: _ } => true,
        _ => false,
    }
}
