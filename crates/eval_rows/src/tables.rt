//! Expressions beside what they give, one a line: the `repr` of a value, or `Fault` and its kind.
//! A change stands behind the value `x` that it changes. Values are taken from the Starlark
//! specification and from Python.

/// Operators on numbers.
pub(crate) const NUMBERS: &str = r#"7 + -9 => -2
9223372036854775807 + 1 => Fault overflow
(-9223372036854775807 - 1) - 1 => Fault overflow
9223372036854775807 * 2 => Fault overflow
-3 * 4 => -12
-7 // 2 => -4
-7 % 2 => 1
7 % -2 => -1
7 // -2 => -4
1 // 0 => Fault zero
1 % 0 => Fault zero
(-9223372036854775807 - 1) // -1 => Fault overflow
(-9223372036854775807 - 1) % -1 => 0
-(-9223372036854775807 - 1) => Fault overflow
-5 => -5
+5 => 5
~5 => -6
+True => Fault type
not 0 => True
not [] => True
not [0] => False
1 << 62 => 4611686018427387904
1 << 63 => Fault overflow
1 << 64 => Fault overflow
0 << 64 => 0
1 << -1 => Fault value
-5 >> 1 => -3
1 >> 64 => Fault overflow
0 >> -1 => Fault value
6 & -4 => 4
6 | -8 => -2
6 ^ 3 => 5
True == 1 => False
True + 1 => Fault type"#;

/// Equality and order.
pub(crate) const COMPARED: &str = r#"[1, 2] == [1, 2] => True
[1] == (1,) => False
{"a": 1, "b": 2} == {"b": 2, "a": 1} => True
{"a": 1} == {"a": 2} => False
range(0, 3, 2) == range(0, 4, 2) => True
range(0, 3, 1) == range(0, 3, 2) => False
None != 0 => True
"a" == "a" => True
"a" < "b" => True
"Z" < "a" => True
[1, 2] < [1, 3] => True
(1,) <= (1,) => True
[1, 0] > [1] => True
1 >= 2 => False
False < True => True
None < None => Fault type
1 < "a" => Fault type
[1] < (2,) => Fault type
range(0, 1, 1) < range(0, 2, 1) => Fault type"#;

/// Operators, indexes and slices on containers and texts.
pub(crate) const CONTAINERS: &str = r#""a" + "b" => "ab"
[1] + [2] => [1, 2]
(1,) + (2, 3) => (1, 2, 3)
[1] + (2,) => Fault type
"ab" * 2 => "abab"
2 * [1] => [1, 1]
(1,) * -1 => ()
"a" * 16777217 => Size
[1] * 1048577 => Size
{"a": 1, "b": 2} | {"b": 3, "c": 4} => {"a": 1, "b": 3, "c": 4}
{"a": 1} | [] => Fault type
"bc" in "abcd" => True
"" in "" => True
1 in "a" => Fault type
2 in [1, 2] => True
2 not in (1,) => True
"a" in {"a": 1} => True
[] in {"a": 1} => Fault type
4 in range(0, 10, 2) => True
10 in range(0, 10, 2) => False
"a" in range(0, 1, 1) => False
1 in 1 => Fault type
[1, 2, 3][-1] => 3
[1][1] => Fault index
(1,)[-2] => Fault index
"aéb"[1] => "é"
range(0, 10, 3)[-1] => 9
{"a": 1}["a"] => 1
{"a": 1}["b"] => Fault key
{"a": 1}[[]] => Fault type
[1]["a"] => Fault type
1[1] => Fault type
[1, 2, 3][::-1] => [3, 2, 1]
[1, 2, 3, 4][1:-1] => [2, 3]
"abcde"[-3::2] => "ce"
(1, 2, 3)[5:-9:-1] => (3, 2, 1)
(1, 2, 3)[2:0] => ()
range(0, 10, 1)[2:8:3] => range(2, 8, 3)
range(0, 10, 1)[::-2] => range(9, -1, -2)
[1][::0] => Fault zero
[1]["a"::0] => Fault type
{"a": 1}[:] => Fault type"#;

/// Functions of the library.
pub(crate) const FUNCTIONS: &str = r#"abs(-5) => 5
abs((-9223372036854775807 - 1)) => Fault overflow
abs(True) => Fault type
abs() => Fault arity
all([1, 0]) => False
all([]) => True
any([0, 2]) => True
any(()) => False
any(1) => Fault type
all("a") => Fault type
bool() => False
bool([0]) => True
bool("") => False
dict() => {}
dict([(1, 2), (3, 4), (1, 5)]) => {1: 5, 3: 4}
dict({"a": 1}) => {"a": 1}
dict([1]) => Fault type
dict([]) => {}
dict(1) => Fault type
dict([], []) => Fault arity
enumerate(["a", "b"]) => [(0, "a"), (1, "b")]
enumerate([7], 5) => [(5, 7)]
enumerate([1, 2], 9223372036854775807) => Fault overflow
enumerate([1], "a") => Fault type
len("aé") => 2
len([1, 2]) => 2
len({"a": 1}) => 1
len(range(0, 10, 3)) => 4
len(range((-9223372036854775807 - 1), 9223372036854775807, 1)) => Fault overflow
len(1) => Fault type
len((1,)) => 1
list() => []
list((1, 2)) => [1, 2]
list({"a": 1, "b": 2}) => ["a", "b"]
list(range(0, 3, 1)) => [0, 1, 2]
list("ab") => Fault type
list(None) => Fault type
tuple([1]) => (1,)
tuple() => ()
tuple(1) => Fault type
repr("a\"") => "\"a\\\"\""
str("a") => "a"
str([1]) => "[1]"
type(None) => "NoneType"
type([]) => "list"
type(range(0, 1, 1)) => "range"
repr() => Fault arity
print(1, []) => None
print() => None
range(3) => range(0, 3)
range(1, 3) => range(1, 3)
range(0, 6, 2) => range(0, 6, 2)
range(0, 1, 0) => Fault zero
range() => Fault arity
range("a") => Fault type
range(1, 2, 3, 4) => Fault arity
reversed([1, 2, 3]) => [3, 2, 1]
reversed({"a": 1, "b": 2}) => ["b", "a"]
reversed("ab") => Fault type
zip() => []
zip([1, 2, 3], ["a", "b"]) => [(1, "a"), (2, "b")]
zip([1, 2]) => [(1,), (2,)]
zip([1], 1) => Fault type"#;

/// Integers that texts spell.
pub(crate) const INTEGERS: &str = r#"int("12") => 12
int("-0") => 0
int("+7") => 7
int("") => Fault value
int("-") => Fault value
int("1 ") => Fault value
int("1_0") => Fault value
int("ff", 16) => 255
int("0xFF", 16) => 255
int("0b1", 16) => 177
int("0b11", 2) => 3
int("0o17", 8) => 15
int("0x", 16) => Fault value
int("zz", 36) => 1295
int("12", 2) => Fault value
int("0b1") => Fault value
int("0x1f", 0) => 31
int("-0B101", 0) => -5
int("0O7", 0) => 7
int("0", 0) => 0
int("010", 0) => Fault value
int("00", 0) => Fault value
int("12", 0) => 12
int("9223372036854775807") => 9223372036854775807
int("-9223372036854775808") => -9223372036854775808
int("9223372036854775808") => Fault overflow
int("-9223372036854775809") => Fault overflow
int("99999999999999999999999999") => Fault overflow
int("99999999999999999999999999x") => Fault value
int("1", 1) => Fault value
int("1", 37) => Fault value
int("1", -1) => Fault value
int(1, 10) => Fault type
int(True) => 1
int(5) => 5
int(None) => Fault type
int([]) => Fault type
int("1", "2") => Fault type"#;

/// Sorted values, and the greatest and the least.
pub(crate) const SORTED: &str = r#"sorted([3, 1, 2]) => [1, 2, 3]
sorted([3, 1, 2], None, True) => [3, 2, 1]
sorted([5, 4, 3, 2, 1, 0, 9, 8, 7]) => [0, 1, 2, 3, 4, 5, 7, 8, 9]
sorted({"b": 1, "a": 2}) => ["a", "b"]
sorted([(2, 1), (1, 2), (1, 1)]) => [(1, 1), (1, 2), (2, 1)]
sorted([]) => []
sorted([1, "a"]) => Fault type
sorted(1) => Fault type
sorted([], None, 1) => Fault type
max([1, 3, 2]) => 3
max(1, 3, 2) => 3
min(["b", "a"]) => "a"
min(2, 1) => 1
max() => Fault value
max([]) => Fault value
max(1) => Fault type
min(1, "a") => Fault type"#;

/// What methods of lists and dictionaries give.
pub(crate) const METHODS: &str = r#"[5, 6, 5].index(5, 1) => 2
[1, 2].pop() => 2
[1, 2].pop(0) => 1
{"a": 1}.get("a") => 1
{"a": 1}.get("b", 2) => 2
{"a": 1, "b": 2}.items() => [("a", 1), ("b", 2)]
{"a": 1}.keys() => ["a"]
{"a": 1}.values() => [1]
{"a": 1, "b": 2}.pop("a") => 1
{"a": 1, "b": 2}.popitem() => ("a", 1)
{"a": 1}.setdefault("a", 2) => 1"#;

/// A value, a change of it behind `::`, and what is left.
pub(crate) const CHANGES: &str = r#"[1] :: x.append(2) => [1, 2]
[1] :: x.append() => Fault arity
[1] :: x.clear() => []
[1] :: x.extend((2, 3)) => [1, 2, 3]
[1] :: x.extend(1) => Fault type
[5, 6, 5] :: x.index(5, 1) => [5, 6, 5]
[5, 6, 5] :: x.index(5, 1, -1) => Fault value
[5] :: x.index(6) => Fault value
[5] :: x.index(5, "a") => Fault type
[1, 2] :: x.insert(-1, 9) => [1, 9, 2]
[1] :: x.insert(7, 9) => [1, 9]
[1] :: x.insert(-7, 9) => [9, 1]
[1] :: x.insert("a", 9) => Fault type
[1, 2] :: x.pop() => [1]
[1, 2] :: x.pop(0) => [2]
[1] :: x.pop(1) => Fault index
[] :: x.pop() => Fault index
[1] :: x.pop("a") => Fault type
[1, 2, 1] :: x.remove(1) => [2, 1]
[1] :: x.remove(2) => Fault value
[1] :: x.push() => Fault attr
{"a": 1} :: x.get("a") => {"a": 1}
{"a": 1} :: x.get("b") => {"a": 1}
{"a": 1} :: x.get("b", 2) => {"a": 1}
{"a": 1} :: x.get([]) => Fault type
{"a": 1, "b": 2} :: x.items() => {"a": 1, "b": 2}
{"a": 1} :: x.keys() => {"a": 1}
{"a": 1} :: x.values() => {"a": 1}
{"a": 1} :: x.clear() => {}
{"a": 1, "b": 2} :: x.pop("a") => {"b": 2}
{"a": 1} :: x.pop("b") => Fault key
{"a": 1} :: x.pop("b", None) => {"a": 1}
{"a": 1, "b": 2} :: x.popitem() => {"b": 2}
{} :: x.popitem() => Fault key
{"a": 1} :: x.setdefault("a", 2) => {"a": 1}
{"a": 1} :: x.setdefault("b") => {"a": 1, "b": None}
{"a": 1} :: x.update({"a": 2, "b": 3}) => {"a": 2, "b": 3}
{"a": 1} :: x.update([(1, 2)]) => {"a": 1, 1: 2}
{"a": 1} :: x.update(1) => Fault type
{"a": 1} :: x.update([1]) => Fault type
{} :: x.update() => {}
[1, 2] :: x[-1] = 9 => [1, 9]
[1] :: x[1] = 9 => Fault index
{"a": 1} :: x["b"] = 9 => {"a": 1, "b": 9}
{"a": 1} :: x[[]] = 9 => Fault type
(1,) :: x[0] = 9 => Fault type
[1] :: x += {"a": 1} => [1, "a"]
[1] :: x += 1 => Fault type
{"a": 1} :: x |= {"a": 2} => {"a": 2}
{"a": 1} :: x |= [] => Fault type
[1] :: for i in x: x.append(1) => Fault iterating
[1] :: for i in x: x.extend([]) => Fault iterating
[1] :: for i in x: x.insert(0, 1) => Fault iterating
[1] :: for i in x: x.remove(2) => Fault iterating
{"a": 1} :: for i in x: x.pop("b", None) => Fault iterating
{"a": 1} :: for i in x: x.setdefault("a") => Fault iterating
{"a": 1} :: for i in x: x.update() => Fault iterating
{"a": 1} :: for i in x: x.update([(1, 2)]) => Fault iterating
[1] :: for i in x: x[5] = 1 => Fault iterating
{"a": 1} :: for i in x: x["a"] = 1 => Fault iterating
[1] :: for i in x: x += [] => Fault iterating
{"a": 1} :: for i in x: x |= {} => Fault iterating"#;
