//! Texts beside what comes of a call of their first global.
use crate::tables::{CHANGES, COMPARED, CONTAINERS, FUNCTIONS, INTEGERS, METHODS, NUMBERS, SORTED};
use crate::trials::{first_wrong, outcome};
use std::process::Abort;
use std::test::Fail;

/// How many steps a call may make.
const LIMIT: u64 = 1_000;

fn agree<R: AllocGlobal + Abort>(rt: &R, rows: &[(&str, &str)]) -> Result<(), Fail> {
    for (text, want) in rows {
        let got = outcome(rt.alloc(), *text, LIMIT)?;
        assert_eq!(rt; got.as_str(), *want, "at {text}");
    }
    Ok(())
}

#[test]
fn a_host_is_asked_once_and_called_once(rt: HostRuntime) -> Result<(), Fail> {
    agree(
        &rt,
        &[
            ("def f(o):\n    return o.g()\n", "asks \"1\" 4 5"),
            (
                "def f(o):\n    return [o.count(), o.h()]\n",
                "asks [1, \"1\"] 8 9",
            ),
            (
                "def f(o):\n    x = o.g\n    return [x(), o.count(), x()]\n",
                "asks [\"1\", 1, \"1\"] 12 13",
            ),
            ("def f(o):\n    return o()\n", "asks \"1\" 3 4"),
        ],
    )
}

#[test]
fn changes_under_a_walk_and_calls_of_oneself_are_refused(rt: HostRuntime) -> Result<(), Fail> {
    agree(
        &rt,
        &[
            (
                "def f(o):\n    x = [1, 2]\n    for i in x:\n        x.append(i)\n",
                "Fault iterating t.bzl:4  12 13",
            ),
            (
                "def f(o):\n    x = [1, 2]\n    for i in x:\n        break\n    x.append(3)\n    return x\n",
                "[1, 2, 3]  15 16",
            ),
            (
                "def f(o):\n    return f(o)\n",
                "Fault recursion t.bzl:2  4 5",
            ),
        ],
    )
}

#[test]
fn steps_are_counted_and_limited(rt: HostRuntime) -> Result<(), Fail> {
    agree(
        &rt,
        &[
            (
                "def f(o):\n    for i in range(497):\n        pass\n    pass\n",
                "None  999 1000",
            ),
            (
                "def f(o):\n    for i in range(498):\n        pass\n",
                "Steps  t.bzl:3  1000 1001",
            ),
            (
                "def f(o):\n    for i in range(497):\n        pass\n    o.g(o)\n",
                "Steps  t.bzl:4  1000 1001",
            ),
            (
                "def f(o):\n    for i in range(495):\n        pass\n    o.g(o)\n",
                "asks None 999 1000",
            ),
        ],
    )
}

#[test]
fn refusals_tell_where_the_statement_begins(rt: HostRuntime) -> Result<(), Fail> {
    agree(
        &rt,
        &[
            (
                "def f(o):\n    if 1:\n        return [1,\n            1 // 0]\n",
                "Fault zero t.bzl:3  8 9",
            ),
            (
                "def g():\n    return 1 + None\n\ndef f(o):\n    return g(\n    )\n",
                "Fault arity :0  0 2",
            ),
            ("def f(o):\n    return x\n\nx = 1\n", "1  2 5"),
            ("def f(o):\n    x = x\n", "Fault unbound t.bzl:2  2 3"),
            (
                "def f(o):\n    return sorted([1], key = len)\n",
                "Unsupported  t.bzl:2  6 7",
            ),
            (
                "def f(o):\n    return {1: 2, 1: 3}\n",
                "Fault value t.bzl:2  6 7",
            ),
            (
                "def f(o):\n    return o.count().x\n",
                "Fault attr t.bzl:2  5 6",
            ),
        ],
    )
}

#[test]
fn arguments_are_bound_to_parameters(rt: HostRuntime) -> Result<(), Fail> {
    agree(
        &rt,
        &[
            (
                "def f(o, a = [1, 2], *b, k = 3, **c):\n    return a, b, k, c\n",
                "([1, 2], (), 3, {})  6 11",
            ),
            (
                "def f(o):\n    return g(1, k = 4, *[2, 3], **{\"z\": 5})\n\ndef g(a, b = 0, *c, k, **d):\n    return [a, b, c, k, d]\n",
                "[1, 2, (3,), 4, {\"z\": 5}]  18 21",
            ),
            (
                "def f(o):\n    return g(1, a = 2)\n\ndef g(a):\n    return a\n",
                "Fault arity t.bzl:2  5 7",
            ),
            (
                "def f(o):\n    return g(**{1: 2})\n\ndef g(**a):\n    return a\n",
                "Fault type t.bzl:2  6 8",
            ),
            (
                "def f(o):\n    return g(k = 1, **{\"k\": 2})\n\ndef g(**a):\n    return a\n",
                "Fault arity t.bzl:2  7 9",
            ),
            (
                "def f(o):\n    return g(*1)\n\ndef g(*a):\n    return a\n",
                "Fault type t.bzl:2  4 6",
            ),
            (
                "def f(o):\n    n = 2\n    g = lambda x, y = n: x * y + n\n    n = 5\n    return g(3)\n",
                "11  16 17",
            ),
            ("def f(o):\n    return o.g(k = 1)\n", "asks \"1\" 5 6"),
            (
                "def f(o):\n    def g(x = o.h(), *y, **z):\n        return x, y, z\n    return g(o.h(), *[o.count()], **{\"a\": o.h()})\n",
                "asks (\"1\", (1,), {\"a\": \"1\"}) 24 25",
            ),
        ],
    )
}

#[test]
fn comprehensions_have_a_scope_of_their_own(rt: HostRuntime) -> Result<(), Fail> {
    agree(
        &rt,
        &[
            ("def f(o):\n    return [i for i in [1]]\n", "[1]  6 7"),
            (
                "def f(o):\n    i = 7\n    x = [i for i in range(3) if i > 0 for j in range(i)]\n    return x, i\n",
                "([1, 2, 2], 7)  35 36",
            ),
            (
                "def f(o):\n    return {k: v for k, v in [(1, 2), (1, 3)]}\n",
                "{1: 3}  15 16",
            ),
            (
                "def f(o):\n    return [o.h() for i in [1, 2]]\n",
                "asks [\"1\", \"1\"] 13 14",
            ),
            (
                "def f(o):\n    x = [1]\n    return [x.append(i) for i in x]\n",
                "Fault iterating t.bzl:3  11 12",
            ),
        ],
    )
}

#[test]
fn values_are_computed(rt: HostRuntime) -> Result<(), Fail> {
    agree(
        &rt,
        &[
            (
                "def f(o):\n    return -7 // 2, -7 % 2, 7 % -2, True == 1\n",
                "(-4, 1, -1, False)  17 18",
            ),
            (
                "def f(o):\n    x, [y, z] = 1, (2, 3)\n    return z, y, x\n",
                "(3, 2, 1)  11 12",
            ),
            (
                "def f(o):\n    x = {\"a\": 1}\n    x[\"a\"] += 2\n    return x\n",
                "{\"a\": 3}  11 12",
            ),
            (
                "def f(o):\n    x = [1]\n    y = x\n    y += (2, 3)\n    return x\n",
                "[1, 2, 3]  12 13",
            ),
            (
                "def f(o):\n    return [3, 1, 2][::-1], \"abc\"[1:]\n",
                "([2, 1, 3], \"bc\")  12 13",
            ),
            ("def f(o):\n    return 0 and 1 // 0 or 2\n", "2  5 6"),
            ("def f(o):\n    return 1 if o else 2\n", "1  4 5"),
            (
                "def f(o):\n    x = [0]\n    def g():\n        x[0] += 1\n        return x[0]\n    return g() + g()\n",
                "3  28 29",
            ),
            (
                "def f(o):\n    for i in [1, 2, 3]:\n        if i == 2:\n            continue\n        return i\n",
                "1  12 13",
            ),
            (
                "def f(o):\n    return \"{}-%s\".format(\"a\") % \"b\", sorted([2, 1])\n",
                "(\"a-b\", [1, 2])  13 14",
            ),
            (
                "def f(o):\n    return len({\"a\": 1}.items()), str(1) + repr(\"x\")\n",
                "(1, \"1\\\"x\\\"\")  16 17",
            ),
        ],
    )
}

fn hold<R: AllocGlobal + Abort>(rt: &R, table: &str) -> Result<(), Fail> {
    if let Some(line) = first_wrong(rt.alloc(), table, LIMIT)? {
        assert_eq!(rt; line.as_str(), "");
    }
    Ok(())
}

#[test]
fn operators_compute(rt: HostRuntime) -> Result<(), Fail> {
    hold(&rt, NUMBERS)?;
    hold(&rt, COMPARED)?;
    hold(&rt, CONTAINERS)
}

#[test]
fn functions_answer(rt: HostRuntime) -> Result<(), Fail> {
    hold(&rt, FUNCTIONS)?;
    hold(&rt, INTEGERS)?;
    hold(&rt, SORTED)
}

#[test]
fn methods_answer_and_change(rt: HostRuntime) -> Result<(), Fail> {
    hold(&rt, METHODS)?;
    hold(&rt, CHANGES)
}
