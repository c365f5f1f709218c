//! Calls beside what comes of them, one a line. Words are separated by spaces; a word that ends in
//! `=` names the argument behind it. A method stands behind its receiver and ` . `, and what comes
//! of it is its value and what is left of the receiver. Values are by the Starlark specification.

/// Functions whose arguments have names.
pub(crate) const FUNCTIONS: &str = r#"abs x= -5 => 5
abs y= -5 => !arity
abs -5 x= -5 => !arity
all elements= [ 1 0 ] => False
any elements= ( 0 2 ) => True
any x= [ ] => !arity
bool x= [ 0 ] => True
bool x= None => False
dict a= 1 b= 2 => {"a": 1, "b": 2}
dict [ ( "a" 1 ) ( "c" 3 ) ] a= 2 => {"a": 2, "c": 3}
dict { "a" 1 } b= [ ] => {"a": 1, "b": []}
enumerate list= [ 7 8 ] start= 5 => [(5, 7), (6, 8)]
enumerate start= 1 list= [ 7 ] => [(1, 7)]
enumerate [ 7 ] start= 2 => [(2, 7)]
enumerate [ 7 ] start= None => [(0, 7)]
enumerate [ 7 ] 1 start= 2 => !arity
enumerate start= 2 => !arity
enumerate [ 7 ] begin= 2 => !arity
int x= "ff" base= 16 => 255
int base= 2 x= "101" => 5
int "12" base= None => 12
int base= 10 => !arity
len x= { "a" 1 } => 1
list x= ( 1 2 ) => [1, 2]
list x= None => !type
list elements= [ ] => !arity
max 1 3 2 key= None => 3
min [ 2 1 ] key= None => 1
max 1 2 start= None => !arity
max key= None => !value
print 1 2 sep= "-" => None
range 1 stop= 2 => !arity
repr x= ( 1 ) => "(1,)"
reversed sequence= [ 1 2 3 ] => [3, 2, 1]
sorted x= [ 3 1 2 ] => [1, 2, 3]
sorted [ 3 1 2 ] reverse= True => [3, 2, 1]
sorted [ 3 1 2 ] key= None reverse= False => [1, 2, 3]
sorted reverse= True x= [ [ 2 ] [ 1 2 ] [ 1 ] ] => [[2], [1, 2], [1]]
sorted [ ] reverse= 1 => !type
sorted [ ] backwards= True => !arity
sorted [ ( 1 ) [ 1 ] ] => !type
str x= "a" => "a"
tuple x= [ 1 ] => (1,)
type x= None => "NoneType"
zip [ 1 ] x= [ 2 ] => !arity"#;

/// Methods whose arguments have names.
pub(crate) const METHODS: &str = r#"[ 1 ] . append item= 2 => None; [1, 2]
[ 1 ] . append x= 2 => !arity
[ 1 ] . clear x= 1 => !arity
[ 1 ] . extend elements= ( 2 3 ) => None; [1, 2, 3]
[ 1 ] . extend elements= 1 => !type
[ 5 6 5 ] . index x= 5 start= 1 => 2; [5, 6, 5]
[ 5 6 5 ] . index end= 2 x= 5 => 0; [5, 6, 5]
[ 5 6 5 ] . index 5 start= 1 end= -1 => !value
[ 5 6 5 ] . index 5 start= None end= None => 0; [5, 6, 5]
[ 5 ] . index x= 5 start= "a" => !type
[ 5 ] . index start= 0 => !arity
[ 5 ] . index 5 x= 5 => !arity
[ 1 2 ] . insert index= 1 item= 9 => None; [1, 9, 2]
[ 1 2 ] . insert item= 9 index= -9 => None; [9, 1, 2]
[ 1 2 ] . insert 0 => !arity
[ 1 2 3 ] . pop i= 0 => 1; [2, 3]
[ 1 2 3 ] . pop i= None => 3; [1, 2]
[ 1 ] . pop i= 1 => !index
[ 1 ] . pop index= 0 => !arity
[ 1 2 1 ] . remove x= 1 => None; [2, 1]
[ 1 ] . remove x= True => !value
{ "a" 1 } . get key= "a" => 1; {"a": 1}
{ "a" 1 } . get default= 2 key= "b" => 2; {"a": 1}
{ "a" 1 } . get "b" default= None => None; {"a": 1}
{ "a" 1 } . get default= 2 => !arity
{ "a" 1 } . get key= [ ] => !type
{ "a" 1 } . keys key= "a" => !arity
{ "a" 1 "b" 2 } . pop key= "a" => 1; {"b": 2}
{ "a" 1 } . pop key= "b" default= None => None; {"a": 1}
{ "a" 1 } . pop key= "b" => !key
{ "a" 1 } . popitem key= "a" => !arity
{ "a" 1 } . setdefault key= "b" default= 2 => 2; {"a": 1, "b": 2}
{ "a" 1 } . setdefault default= 2 key= "a" => 1; {"a": 1}
{ } . update a= 1 => None; {"a": 1}
{ "a" 1 } . update [ ( "b" 2 ) ] a= 3 c= 4 => None; {"a": 3, "b": 2, "c": 4}
{ "a" 1 } . update { } => None; {"a": 1}"#;

/// Calls on containers that are frozen.
pub(crate) const FROZEN: &str = r#"[ 1 ] . append 2 => !frozen
[ ] . clear => !frozen
[ 1 ] . extend [ ] => !frozen
[ 1 ] . index 1 => 0; [1]
[ 1 ] . insert 0 2 => !frozen
[ ] . pop => !frozen
[ 1 ] . remove 1 => !frozen
[ 1 ] . pop "a" => !type
[ 1 ] . append => !arity
{ "a" 1 } . clear => !frozen
{ "a" 1 } . get "a" => 1; {"a": 1}
{ "a" 1 } . items => [("a", 1)]; {"a": 1}
{ "a" 1 } . keys => ["a"]; {"a": 1}
{ "a" 1 } . values => [1]; {"a": 1}
{ "a" 1 } . pop "b" None => !frozen
{ } . popitem => !frozen
{ "a" 1 } . setdefault "a" 2 => !frozen
{ "a" 1 } . update => !frozen
{ "a" 1 } . update { } => !frozen
sorted [ 2 1 ] => [1, 2]
reversed [ 2 1 ] => [1, 2]
list [ 1 ] => [1]
dict { "a" 1 } b= 2 => {"a": 1, "b": 2}
enumerate [ 7 ] => [(0, 7)]
max [ 1 2 ] => 2"#;

/// Calls on containers under a walk.
pub(crate) const WALKED: &str = r#"[ 1 ] . append 2 => !iterating
[ ] . clear => !iterating
[ 1 ] . extend [ ] => !iterating
[ 1 ] . index x= 1 => 0; [1]
[ 1 ] . insert 0 2 => !iterating
[ ] . pop => !iterating
[ 1 ] . remove 1 => !iterating
{ "a" 1 } . clear => !iterating
{ "a" 1 } . get "a" => 1; {"a": 1}
{ "a" 1 } . items => [("a", 1)]; {"a": 1}
{ "a" 1 } . keys => ["a"]; {"a": 1}
{ "a" 1 } . values => [1]; {"a": 1}
{ "a" 1 } . pop "a" => !iterating
{ } . popitem => !iterating
{ "a" 1 } . setdefault "a" 2 => !iterating
{ "a" 1 } . update => !iterating"#;
