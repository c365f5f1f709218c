//! Calls beside what comes of them, a file a line. Calls are separated by `;`, each on a line of its
//! own of the file; words by spaces; a word that ends in `=` names the argument behind it; `$0` is
//! what the first call gave. By Bazel, "MODULE.bazel files".

/// The root's file: at least a row a directive.
pub(crate) const DECLARED: &str = r#"module => @ 0 
module name= "m" version= "1.0+b" compatibility_level= 2147483647 => m@1.0 2147483647 m
module "m" "1" 2 "r" [ "7" ] => m@1 2 r
bazel_dep "a" "1" => @ 0  | dep a@1 a false 1
bazel_dep name= "a" version= "1" repo_name= "r" dev_dependency= True => @ 0  | dep a@1 r true 1
bazel_dep "a" "1" -1 None => @ 0  | nodep a@1  false 1
bazel_dep name= "d" version= "1.2" repo_name= None => @ 0  | nodep d@1.2  false 1
use_extension "//:e.bzl" "x" => @ 0  | use //:e.bzl x false 1
use_extension "//:e.bzl" "x" dev_dependency= True ; $0.t a= 1 b= [ ] => @ 0  | use //:e.bzl x true 1 tag t 2 true
use_extension "//:e.bzl" "x" ; use_repo $0 "p" r= "q" ; use_repo $0 "s" => @ 0  | use //:e.bzl x false 1 p=p@2 r=q@2 s=s@3
use_extension "//:e.bzl" "x" ; override_repo $0 "p" r= "q" => @ 0  | use //:e.bzl x false 1 change p=p false change r=q false
use_extension "//:e.bzl" "x" ; inject_repo $0 r= "q" => @ 0  | use //:e.bzl x false 1 change r=q true
use_repo_rule "//:r.bzl" "rule" ; $0 name= "n" a= { "k" ( 1 None ) } => @ 0  | repo //:r.bzl rule 2 2
use_repo_rule "//:r.bzl" "rule" ; $0 name= "n" dev_dependency= True => @ 0  | repo //:r.bzl rule 1 2
single_version_override "a" "1.1" => @ 0  | override a 1 single 1.1  false
single_version_override "a" registry= "file://%workspace%/r" patches= [ "p" ] => @ 0  | override a 1 single  file://%workspace%/r true
multiple_version_override "a" [ "1" "2" ] => @ 0  | override a 1 multiple 2 
local_path_override module_name= "a" path= "../a" => @ 0  | override a 1 local ../a
archive_override "a" urls= [ "u" ] => @ 0  | override a 1 archive
git_override module_name= "a" commit= "c" ; archive_override "b" => @ 0  | override a 1 git | override b 2 archive
register_toolchains "//:a" "//:b" dev_dependency= True => @ 0 
register_execution_platforms => @ 0 
use_extension "//:e.bzl" "x" ; use_extension "//:f.bzl" "y" ; $0.t ; $1.u => @ 0  | use //:e.bzl x false 1 tag t 0 false | use //:f.bzl y false 2 tag u 0 false
use_extension "//:e.bzl" "x" ; $0.t a= [ [ [ [ [ [ [ [ [ [ [ [ [ [ [ [ ] ] ] ] ] ] ] ] ] ] ] ] ] ] ] ] => @ 0  | use //:e.bzl x false 1 tag t 1 false"#;

/// The root's file where it is refused.
pub(crate) const REFUSED: &str = r#"bazel_dep "a" "1" ; module name= "b" => !ModuleLate f:2 
module ; module => !ModuleLate f:2 
bazel_dep "a" ; module nosuch= 1 => !Fault f:2 arity
bazel_dep "A" "1" => !BadName f:1 A
bazel_dep "a-" => !BadName f:1 a-
bazel_dep "" => !BadName f:1 
bazel_dep 1 => !BadValue f:1 name
bazel_dep => !Fault f:1 arity
bazel_dep "a" name= "a" => !Fault f:1 arity
bazel_dep "a" "1" -1 "r" False 1 => !Fault f:1 arity
bazel_dep "a" "1-" => !BadVersion f:1 1-
bazel_dep "a" max_compatibility_level= 3 => !Left f:1 max_compatibility_level
bazel_dep "a" repo_name= "1r" => !BadName f:1 1r
bazel_dep "a" dev_dependency= 1 => !BadValue f:1 dev_dependency
module compatibility_level= 2147483648 => !BadValue f:1 compatibility_level
module compatibility_level= -1 => !BadValue f:1 compatibility_level
module bazel_compatibility= [ 1 ] => !BadValue f:1 bazel_compatibility
module repo_name= None => !BadValue f:1 repo_name
use_extension "//:e.bzl" "_x" => !BadName f:1 _x
use_extension "//:e.bzl" "x" isolate= True => !Left f:1 isolate
use_extension "//:e.bzl" "x" True => !Fault f:1 arity
use_extension "//:e.bzl" "x" ; $0.t 1 => !Fault f:2 arity
use_extension "//:e.bzl" "x" ; $0.t a= $0 => !BadValue f:2 a
use_extension "//:e.bzl" "x" ; $0 => !Fault f:2 type
use_extension "//:e.bzl" "x" ; $0.t a= [ [ [ [ [ [ [ [ [ [ [ [ [ [ [ [ [ ] ] ] ] ] ] ] ] ] ] ] ] ] ] ] ] ] => !BadValue f:2 a
use_repo 1 => !BadValue f:1 proxy
use_extension "//:e.bzl" "x" ; use_repo $0 1 => !BadValue f:2 args
use_extension "//:e.bzl" "x" ; use_repo $0 _a= "b" => !BadName f:2 _a
use_extension "//:e.bzl" "x" ; use_repo $0 a= 1 => !BadValue f:2 a
use_extension "//:e.bzl" "x" ; use_repo $0 a= "b+" => !BadName f:2 b+
use_repo_rule "//:r.bzl" "r" ; $0 a= 1 => !Fault f:2 arity
use_repo_rule "//:r.bzl" "r" ; $0 name= "" => !BadName f:2 
use_repo_rule "//:r.bzl" "r" ; $0.x name= "n" => !lacks
single_version_override "a" registry= "https://r" => !Left f:1 registry
single_version_override "a" ; archive_override "a" => !DoubleOverride f:2 a
module "m" ; git_override "m" => !BadValue f:2 module_name
multiple_version_override "a" [ "1" "1+b" ] 5 => !FewVersions f:1 a
multiple_version_override "a" "1" => !BadValue f:1 versions
local_path_override "a" "/../a" => !BadValue f:1 path
use_extension "//:e.bzl" "x" ; archive_override "a" x= $0 => !BadValue f:2 x
git_override "a" "b" => !Fault f:1 arity
register_toolchains 1 => !BadValue f:1 labels
register_toolchains dev_dependency= 1 => !BadValue f:1 dev_dependency
include 1 2 x= 3 => !Left f:1 include"#;

/// The root's file where dev dependencies are ignored.
pub(crate) const IGNORED: &str = r#"bazel_dep "a" "1" dev_dependency= True => @ 0 
bazel_dep "a" "1" => @ 0  | dep a@1 a false 1
use_extension "//:e.bzl" "x" dev_dependency= True ; $0.t ; use_repo $0 "a" ; override_repo $0 "a" => @ 0 
use_extension "//:e.bzl" "x" ; override_repo $0 "a" => @ 0  | use //:e.bzl x false 1
use_repo_rule "//:r.bzl" "r" ; $0 name= "n" dev_dependency= True => @ 0 
git_override "a" => @ 0  | override a 1 git"#;

/// Another module's file.
pub(crate) const ELSEWHERE: &str = r#"git_override "a" ; git_override "a" => @ 0 
multiple_version_override "a" [ "1" ] => !FewVersions f:1 a
use_extension "//:e.bzl" "x" ; inject_repo $0 "a" => @ 0  | use //:e.bzl x false 1
bazel_dep "a" "1" dev_dependency= True ; bazel_dep "b" "1" => @ 0  | dep b@1 b false 2"#;
