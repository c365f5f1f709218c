//! Calls beside what comes of them, one a line. Versions, their order and labels are those of
//! Bazel's documentation, digests those of FIPS 180-4 and RFC 4648.

pub(crate) const TEXTS: &str = r#"same a@1 | a@1 => true
same a@1 | a@2 => false
cut a=b=c => a | b=c
cut abc => uncut
bytes ab | ab => true
bytes ab | ac => false
hex => e3b0c44298fc1c149afbf4c8996fb92427ae41e4649b934ca495991b7852b855
base64 => 47DEQpj8HBSa+/TImW+5JCeuQeRkm5NMpJWZG3hSuFU=
key a | 1.0 => a@1.0
key b => b@_"#;

/// A join of two texts to the workspace; the last text has a NUL.
pub(crate) const PATHS: &str = "join a/b | ../c/./d => a/c/d
join  | ../x => ../x
join a//b/ => a/b
join a | /b/../c => /c
join .. | ../x => ../../x
join / => /
join /a => /a
join /a | ../.. => BadPath
join /a | /.. => BadPath
join /a | b\0 => BadPath";

/// The order of two versions, one way and the other.
pub(crate) const ORDERED: &str = r#"order 1.0 | 1.0.0 => below above
order 1.0.0-rc1 | 1.0.0 => below above
order 9 | 10 => below above
order 10 | a => below above
order 1.01 | 1.1 => below above
order 1.0-9 | 1.0-10 => below above
order 1-alpha | 1-alpha.1 => below above
order 1-alpha.beta | 1-beta => below above
order 1.0-z | 1.0 => below above
order B | a => below above
order zz.99 => below above
order 1+x | 1 => equal equal
text_order 1.9 | 1.10 => below
text_order  | 1 => above"#;

/// The text of a version, or the first place after which no version follows.
pub(crate) const VERSIONS: &str = r#"version 1+x => "1"
kept 1+x => 1
version 1-a.-+.-z => "1-a.-"
version => empty ""
version 0 => "0"
version 1..0 => fault 2
version 1- => fault 2
version - => fault 0
version 1. => fault 2
version 1.0_1 => fault 3
version 1-a..b => fault 4
version 1+ => fault 2
version 1+a+b => fault 3
version 1.é => fault 2"#;

/// What a text means in the file `@@h+//p:f`, under a pair of names or under none.
pub(crate) const LABELS: &str = r#"resolve e e+ | :x => h+ | p | x
resolve e e+ | x/y => h+ | p | x/y
resolve e e+ | //a/b => h+ | a/b | b
resolve e e+ | @@//:x =>  |  | x
resolve e e+ | @e => e+ |  | e
resolve e e+ | @e//a:b => e+ | a | b
resolve  | //a//b => BadLabel
resolve  | //a/..:x => BadLabel
resolve => BadLabel
resolve  | @ => BadLabel
resolve  | @@. => BadLabel
resolve  | // => BadLabel
resolve  | //a: => BadLabel
resolve  | @h => NotVisible"#;

/// What steps on an empty mapping give, and whether a label's copy is the same label.
pub(crate) const MAPPINGS: &str = "\
mapping add b b+;set a a+;set b b+2;add a c+;first;get a;get c => \
added;set;set;Taken;b b+2 of 2;a+;none;
label_copy @@h+//p:f => true";

pub(crate) const VALUES: &str = r#"kind {"pair":[]} => NotPlain
kind {"label":"@@r//:"} => Label
kind {"label":"@r//:a"} => NotPlain
equal [{"label":"@@h+//p:f"}] | [{"label":"@@h+//p:f"}] => true
equal [{"label":"@@h+//p:f"}] | [] => false
pair a => {"pairs":[["a",1]]}
is_pair a | {"pairs":[["a",1]]} => true
reread a => true"#;

/// Steps on a tree and a keeper in memory, and writes to a sink with room for three bytes.
pub(crate) const TREES: &str = "\
tree put b/y 12;put b/x 12;put a 12;put ../d/z 12;\
read;read b;read b/x;read ..;read b/z;put a/c;read a => \
lists a b;lists x y;2 bytes;lists d;absent;lists c;
tree fail_read 2;fail_read 4;read a;read a;read a;read a;read a => \
absent;failed;absent;failed;absent;
tree put d/x 12;fail_place 2;place d/e/y;place z;place z;place d;place d/x/w;\
read;read d;read d/e/y;read d/x => \
placed;refused;placed;refused;refused;\
lists d z;lists e x;1 bytes;2 bytes;
lock load;fail_load;load;fail_replace keeping;replace ab;load;replace => \
absent;planned;failed;planned;failed;ab;replaced;
sink 3 | ab cd d => 2;1;failed;abc";
