//! The orders of parameters and arguments, and that no name stands twice.
ghost use Rattle.std.specs.Prelude.{◌≡◌, ◌==◌, ◌&&◌, IfOk, Some, None, if◌then◌else◌, nat_le};
ghost use Rattle.std.specs.Option.{option_copied};
ghost use Rattle.star_grammar.specs.Orders as spec;
ghost use Rattle.star_trees.specs.Lists as lists;
ghost use Rattle.star_grammar.specs.declared.bare_expressions.BareArg.{out-BareArg};
ghost use Rattle.star_grammar.specs.declared.bare_expressions.BareParam.{out-BareParam};
ghost use Rattle.star_expressions.specs.NameSets.{Adds};

use bz_text::{Mem, Txt};
use sqlite_items::Items;
use star_grammar::{BareArg, BareParam};
use std::alloc::Global;
use std::collections::BTreeSet;

/// Puts a name into a set, and gives whether it is new.
fn add_name(alloc: Global, names: &mut BTreeSet<String>, name: &Txt) -> Mem<bool>
    ensures { IfOk result (λ fresh. Adds (Some name.now) names.old names.new fresh) }
{
    let name = String::from_str(alloc, name.as_str())?;
    Ok(names.insert(name)?)
}

fn add_any(alloc: Global, names: &mut BTreeSet<String>, name: Option<&Txt>) -> Mem<bool>
    ensures { IfOk result (λ fresh. Adds (option_copied name.entry) names.old names.new fresh) }
{
    match name {
        Some(name) => add_name(alloc, names, name),
        None => Ok(true),
    }
}

fn arg_stage(arg: &BareArg) -> usize
    ensures { result ≡ spec.arg_stage (out-BareArg arg.now) }
{
    match arg {
        BareArg::Positional(_) => 0,
        BareArg::Named { name: _, value: _ } => 1,
        BareArg::Star { value: _, line: _ } => 2,
        BareArg::DoubleStar { value: _, line: _ } => 3,
    }
}

fn arg_name(arg: &BareArg) -> Option<&Txt>
    ensures { option_copied result ≡ spec.arg_name (out-BareArg arg.now) }
{
    match arg {
        BareArg::Named { name, value: _ } => Some(name),
        BareArg::Positional(_) => None,
        BareArg::Star { value: _, line: _ } => None,
        BareArg::DoubleStar { value: _, line: _ } => None,
    }
}

fn may_follow(last: usize, next: usize) -> bool
    ensures { result ≡ lists.may_follow last next }
{
    last < next || (last == next && next <= 1)
}

fn args_in_order(args: &[BareArg]) -> bool
    ensures { result ≡ spec.args_in_order 0 args.now }
{
    let mut last = 0;
    let mut rest = args;
    'turns: while let Some((arg, more)) = rest.split_first() {
        let stage = arg_stage(arg);
        if !may_follow(last, stage) {
            return false;
        }
        last = stage;
        rest = more;
    }
    true
}

fn args_differ(alloc: Global, args: &[BareArg]) -> Mem<bool>
    ensures { IfOk result (λ differ. differ ≡ lists.all_different (spec.arg_names args.now)) }
{
    let mut names = BTreeSet::new(alloc);
    let mut rest = args;
    'turns: while let Some((arg, more)) = rest.split_first() {
        if !add_any(alloc, &mut names, arg_name(arg))? {
            return Ok(false);
        }
        rest = more;
    }
    Ok(true)
}

#[tactic(auto, unfolding(star_grammar::specs::Orders::are_args))]
pub(crate) fn are_args(alloc: Global, args: &Items<BareArg>) -> Mem<bool>
    ensures { IfOk result (λ good. good ≡ spec.are_args args.now) }
{
    if !args_in_order(args.as_slice()) {
        return Ok(false);
    }
    args_differ(alloc, args.as_slice())
}

/// The stage of a parameter behind one of the given stage.
fn param_stage(last: usize, param: &BareParam) -> Option<usize>
    ensures { result ≡ spec.param_stage last (out-BareParam param.now) }
{
    match param {
        BareParam::Required(_) => required_stage(last),
        BareParam::Optional {
            name: _,
            default: _,
        } => optional_stage(last),
        BareParam::Bare { line: _ } => star_stage(last),
        BareParam::Rest { name: _, line: _ } => star_stage(last),
        BareParam::Keywords { name: _, line: _ } => keywords_stage(last),
    }
}

fn required_stage(last: usize) -> Option<usize>
    ensures { result ≡ (if last == 0 then Some 0 else (if nat_le 2 last && nat_le last 3 then Some 3 else
        None)) }
{
    if last == 0 {
        Some(0)
    } else if 2 <= last && last <= 3 {
        Some(3)
    } else {
        None
    }
}

fn optional_stage(last: usize) -> Option<usize>
    ensures { result ≡ (if nat_le last 1 then Some 1 else (if nat_le last 3 then Some 3 else None)) }
{
    if last <= 1 {
        Some(1)
    } else if last <= 3 {
        Some(3)
    } else {
        None
    }
}

fn star_stage(last: usize) -> Option<usize>
    ensures { result ≡ (if nat_le last 1 then Some 2 else None) }
{
    if last <= 1 { Some(2) } else { None }
}

fn keywords_stage(last: usize) -> Option<usize>
    ensures { result ≡ (if nat_le last 3 then Some 4 else None) }
{
    if last <= 3 { Some(4) } else { None }
}

fn param_name(param: &BareParam) -> Option<&Txt>
    ensures { option_copied result ≡ spec.param_name (out-BareParam param.now) }
{
    match param {
        BareParam::Required(name) => Some(name),
        BareParam::Optional { name, default: _ } => Some(name),
        BareParam::Bare { line: _ } => None,
        BareParam::Rest { name, line: _ } => Some(name),
        BareParam::Keywords { name, line: _ } => Some(name),
    }
}

fn params_in_order(params: &[BareParam]) -> bool
    ensures { result ≡ spec.params_in_order (Some 0) params.now }
{
    let mut last = 0;
    let mut rest = params;
    'turns: while let Some((param, more)) = rest.split_first() {
        let Some(stage) = param_stage(last, param) else {
            return false;
        };
        last = stage;
        rest = more;
    }
    true
}

fn params_differ(alloc: Global, params: &[BareParam]) -> Mem<bool>
    ensures { IfOk result (λ differ. differ ≡ lists.all_different (spec.param_names params.now)) }
{
    let mut names = BTreeSet::new(alloc);
    let mut rest = params;
    'turns: while let Some((param, more)) = rest.split_first() {
        if !add_any(alloc, &mut names, param_name(param))? {
            return Ok(false);
        }
        rest = more;
    }
    Ok(true)
}

#[tactic(auto, unfolding(star_grammar::specs::Orders::are_params))]
pub fn are_params(alloc: Global, params: &Items<BareParam>) -> Mem<bool>
    ensures { IfOk result (λ good. good ≡ spec.are_params params.now) }
{
    if !params_in_order(params.as_slice()) {
        return Ok(false);
    }
    params_differ(alloc, params.as_slice())
}
