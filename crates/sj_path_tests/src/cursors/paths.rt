// Paths over small documents. Behind a document stand its paths, each with what it gives: the items, the end, and how
// many steps it takes to get there. Where the modes differ, strict mode stands behind the semicolon. $n is 5, $p is
// "An", $t is true.
//
// The answers were worked out by hand. A member accessor takes a step for each member of its object, `[*]`, unwrapping
// and `keyvalue()` one for each child, and a subscript one for each element up to the last that it reaches; what stands
// on the right of a comparison is gone through once for each item on the left, and once where there is none.

pub(super) const PATHS: &str = r##"
{"a":[{"b":1},[{"b":2}],{"c":3}]}
  $.a.b => 1 End 6 ; 2203C 1
  $.a[*].b => 1 2 End 8 ; 1 2203C 4
  $.a[0].b => 1 End 3
  $.a[0 to 1].b => 1 2 End 6 ; 1 2203C 4
  $.x => End 1 ; 2203A 1
  $.* => [{"b":1},[{"b":2}],{"c":3}] End 1
  $.a.* => 1 3 End 6 ; 2203C 1
  $.a.size() => 3 End 1
  $.a.type() => "array" End 1
[10,20,30]
  $ => [10,20,30] End 0
  $[*] => 10 20 30 End 3
  $[2] => 30 End 3
  $[-99999999999999999999999999999999999999 to 99999999999999999999999999999999999999] => 10 20 30 End 3 ; 22033 0
  $[last] => 30 End 3
  $[last - 1] => 20 End 2
  $[last, 0 to 1, 5] => 30 10 20 End 5 ; 30 10 20 22033 5
  $[0.9] => 10 End 1
  $["0"] => 22033 0
  $[true] => 22033 0
  $[null] => 22033 0
  $[$] => 22033 0
  $[-1] => End 0 ; 22033 0
  $[3] => End 0 ; 22033 0
  $[-1 to 0] => 10 End 1 ; 22033 0
  $[2 to 1] => End 0 ; 22033 0
  $[1 to 99] => 20 30 End 3 ; 22033 0
  $[1 to $[5]] => 22033 0
  $[$[0] - 8] => 30 End 4
  $[0, $["x"], 1] => 10 22033 1
  $[0 to last ? (@ > 1)] => 10 20 30 End 3
  $[*][0] => 10 20 30 End 3 ; 22039 1
  $[*][last] => 10 20 30 End 3 ; 22039 1
  $[*][1] => End 3 ; 22039 1
  $.a => End 3 ; 2203C 0
  $.* => End 3 ; 2203C 0
  $[*] ? (@ > $[5]) => End 3
  $[*] ? ((@ > $[5]) is unknown) => End 3 ; 10 20 30 End 3
7
  $[*] => 7 End 0 ; 22039 0
  $[0] => 7 End 0 ; 22039 0
  $[last] => 7 End 0 ; 22039 0
  $[1] => End 0 ; 22039 0
  $["x"] => 22033 0 ; 22039 0
  $.a => End 0 ; 2203C 0
  $.* => End 0 ; 2203C 0
  $.keyvalue() => 2203C 0
  -$ => -7 End 0
  +$ => 7 End 0
  $.size() => 1 End 0
[]
  $[*] => End 0
  $[0] => End 0 ; 22033 0
  $[last] => End 0 ; 22033 0
  $[last + 1] => End 0 ; 22033 0
  $.abs() => End 0 ; 22036 0
  -$ => End 0 ; 22036 0
  $ + 1 => 22038 0 ; 22036 0
  $.size() => 0 End 0
  $ ? (@ == 1) => End 0
{}
  $.* => End 0
  $.a => End 0 ; 2203A 0
  $.keyvalue() => End 0
{"a":1,"b":2,"a":3}
  $[*] => {"a":1,"b":2,"a":3} End 0 ; 22039 0
  $.a => 1 3 End 3
  $.* => 1 2 3 End 3
  $.c => End 3 ; 2203A 3
  $.keyvalue() => {"name":"a","value":1,"id":0} {"name":"b","value":2,"id":0} {"name":"a","value":3,"id":0} End 3
  $.keyvalue().value => 1 2 3 End 3
  $.keyvalue().name => "a" "b" "a" End 3
{"a":1}
  $.keyvalue() => {"name":"a","value":1,"id":0} End 1
  $.keyvalue().keyvalue() => {"name":"name","value":"a","id":-1} {"name":"value","value":1,"id":-1} {"name":"id","value":0,"id":-1} End 1
  $.keyvalue().keyvalue().id => -1 -1 -1 End 1
  $.keyvalue().* => "a" 1 0 End 1
  $.keyvalue().other => End 1 ; 2203A 1
[{"a":1},{"b":[{}]}]
  $[*].keyvalue() => {"name":"a","value":1,"id":1} {"name":"b","value":[{}],"id":3} End 4
  $.keyvalue().id => 1 3 End 4 ; 2203C 0
[1,2,"x"]
  $[*].abs() => 1 2 22036 3
  $.abs() => 1 2 22036 3 ; 22036 0
  $.type() => "array" End 0
  $[*].type() => "number" "number" "string" End 3
  $[*].size() => 1 1 1 End 3
  $[*].abs() + 1 => 22038 2 ; 22036 3
  $[$[*].abs()] => 22033 2 ; 22036 3
  $[$[0 to 1]] => 22033 2
[1,"x"]
  $[*].abs() => 1 22036 2
  $[*].abs() + 1 => 22036 2
[null,true,1.5,"s",[],{}]
  $[*].type() => "null" "boolean" "number" "string" "array" "object" End 6
  $[*].size() => 1 1 1 1 0 1 End 6
[-1.5,2.5]
  $[*].floor() => -2 2 End 2
  $[*].ceiling() => -1 3 End 2
  $[*].abs() => 1.5 2.5 End 2
  $.floor().abs() => 2 2 End 2 ; 22036 0
  -$[*] => 1.5 -2.5 End 2
[[1],2]
  $ ? (1 == 1) => [1] 2 End 2 ; [[1],2] End 0
[[1,[2]],3]
  $[*] + 1 => 22038 3 ; 22038 2
  $[*].abs() => 1 22036 3 ; 22036 1
{"a":[1,-2]}
  -$.a => -1 2 End 3 ; 22036 1
  +$.a[*] => 1 -2 End 3
  $.a + 1 => 22038 3 ; 22036 1
  1 + $.a => 22038 3 ; 22036 1
  $.a[0] + $.a[1] => -1 End 5
  $.a[1] - $.a[0] * 2 => -4 End 5
  -(-$.a[1]) => -2 End 3
  -$.a[1].abs() => -2 End 3
{"x":0.1,"y":0.2,"z":1.50,"w":1e400,"m":-0,"s":"t"}
  $.x + $.y => 0.3 End 12
  $.z => 1.5 End 6
  $.w => 1e400 End 6
  $.m => 0 End 6
  $.w + 1 => 22003 6
  1 + $.w => 22003 6
  -$.w => 22003 4
  +$.w => 22003 4
  $.w.abs() => 22003 4
  $.x / $.m => 22012 12
  $.x % $.m => 22012 12
  $.s + 1 => 22036 6
  1 + $.s => 22036 6
  $.none + 1 => 22038 6 ; 2203A 6
  1 + $.none => 22038 6 ; 2203A 6
  $.none + $.s => 22038 6 ; 2203A 6
  $.s + $.none => 22036 6
  $[$.w] => 22033 6 ; 22039 0
  $.* ? (@ < 1) => 0.1 0.2 0 End 6
{"a":1,"b":3,"z":0}
  $.a / $.b => 0.3333333333333333 End 6
  $.a / $.z => 22012 6
  -7 % 3 => -1 End 0
  7 % -3 => 1 End 0
  1 / 3 * 3 => 0.9999999999999999 End 0
  2 + 3 * 4 => 14 End 0
  (1 + 2) / 2 => 1.5 End 0
  99999999999999999999999999999999999999 + 1 => 22003 0
[99999999999999999999999999999999999999]
  $[0] + 1 => 22003 1
[[1,2],[3,4,5]]
  $[*] ? (@.size() > 2)[last] => End 7 ; 5 End 5
  $[*] ? (@[0] == 3)[1] => End 7 ; 4 End 6
  $[1][*] ? (@ > $[0][1]) => 3 4 5 End 14
{"v":["a",7]}
  $ ? (@.v[*] > 5) => {"v":["a",7]} End 3 ; End 3
  $ ? (@.v[*] == "a") => {"v":["a",7]} End 2 ; End 3
  $ ? (@.v > 5) => {"v":["a",7]} End 3 ; End 1
  $.v[*] ? (@ > 5) => 7 End 3
  $ ? (exists(@.v[*].abs())) => End 2
{"v":[1,"a"]}
  $ ? (exists(@.v[*].abs())) => {"v":[1,"a"]} End 2 ; End 3
  $ ? (!exists(@.w)) => {"v":[1,"a"]} End 1 ; End 1
  $ ? ((exists(@.w)) is unknown) => End 1 ; {"v":[1,"a"]} End 1
  $ ? (exists(@.v[2])) => End 1
  $ ? ((exists(@.v[2])) is unknown) => End 1 ; {"v":[1,"a"]} End 1
{"v":"a"}
  $ ? ((@.none == @.v.abs()) is unknown) => {"v":"a"} End 2
  $ ? (@.v.abs() == @.none) => End 2
  $ ? (@.none == @.none) => End 2
  $ ? (!(@.none == @.none)) => {"v":"a"} End 2 ; End 2
{"a":null}
  $ ? (@.a != 1) => {"a":null} End 1
  $ ? (@.a == 1) => End 1
  $ ? (!(@.a < 1)) => {"a":null} End 1
  $ ? ((@.b == 1) is unknown) => End 1 ; {"a":null} End 1
  $.a ? (@ == null) => null End 1
  $.a ? (@ != null) => End 1
  $ ? (@.a >= null) => {"a":null} End 1
  $ ? (@ != null) => {"a":null} End 0
  $ ? (@ == null) => End 0
  $ ? ((@ < null) is unknown) => End 0
  $ ? ((@ == @) is unknown) => {"a":null} End 0
  $ ? (@.a == true) => End 1
[1,"a",true,null,[1],{}]
  $[*] ? (@ == 1) => 1 1 End 7 ; 1 End 6
  $[*] ? (@ < "b") => "a" End 7 ; "a" End 6
  $[*] ? (@ >= false) => true End 7 ; true End 6
  $[*] ? (@ <> null) => 1 "a" true 1 {} End 7 ; 1 "a" true [1] {} End 6
  $[*] ? ((@ == 1) is unknown) => "a" true {} End 7 ; "a" true [1] {} End 6
  $[*] ? (@ starts with "a") => "a" End 7 ; "a" End 6
  $[*] ? (!(@ starts with "b")) => "a" End 7 ; "a" End 6
  $ ? (@ starts with "a") => "a" End 7 ; End 0
  $ ? (@[*] starts with "a") => "a" End 7 ; End 6
[1e400,1]
  $[*] ? (@ == 1) => 1 End 2
  $[*] ? ((@ > 0) is unknown) => 1e400 End 2
  $[*] ? (@ != null) => 1e400 1 End 2
  $[*] ? (@ == @) => 1 End 2
  $[*].type() => "number" "number" End 2
  $[$[0]] => 22033 1
  $[1 to $[0]] => 22033 1
  $[0] * 0 => 22003 1
  $[0] / 0 => 22003 1
  $[1] / $[0] => 22003 3
{"a":1,"b":"x","c":[1,2,3]}
  $ ? (@.a == 1 || @.c[*] == 3).a => 1 End 4 ; 1 End 6
  $ ? (@.a == 2 || @.c[*] == 3).a => 1 End 12
  $ ? (@.a == 2 && @.c[*] == 3).a => End 3
  $ ? (@.a == 1 && @.c[*] == 3).a => 1 End 10 ; 1 End 12
  $ ? (@.b > 1 && @.a == 2).a => End 6
  $ ? ((@.b > 1 && @.a == 2) is unknown).a => End 6
  $ ? ((@.b > 1 && @.a == 1) is unknown).a => 1 End 7 ; 1 End 9
  $ ? (@.b > 1 || @.a == 1).a => 1 End 7 ; 1 End 9
  $ ? ((@.b > 1 || @.a == 2) is unknown).a => 1 End 9
  $ ? (!(@.b > 1)).a => End 3
  $ ? ((!(@.b > 1)) is unknown).a => 1 End 6
  $ ? (!(@.a == 2 && @.b > 1)).a => 1 End 6
  $ ? (!(@.a == 1 || @.b > 1)).a => End 1 ; End 3
  $ ? ((@.a == 1) is unknown).a => End 1 ; End 3
  $ ? ((@.a / 0 == 1) is unknown).a => 1 End 6
  $ ? (1 == @.a / 0).a => End 3
{"g":[{"k":1,"v":[1,2]},{"k":2,"v":[2,3]}]}
  $.g[*] ? (@.v[*] ? (@ > 2) == 3).k => 2 End 13
  $.g[*] ? (exists(@.v[*] ? (@ == 2))).k => 1 2 End 14 ; 1 2 End 15
  $.g[*] ? (@.v[*] ? (@ == $.g[0].k) == 1).k => 1 End 23 ; 1 End 29
  $.g[*] ? (exists(@.v[*] ? (@ > 2)) && @.k == 2).k => 2 End 14 ; 2 End 15
  $.g ? (@.k == 2).k => 2 End 8 ; End 1
[[1,2,3],[4,5]]
  $[*] ? (@[last] > 4) => 5 End 7 ; [4,5] End 7
  $[$[0][*] ? (@ == last)] => [4,5] End 6
  $[0][$[1][last] - 3] => 3 End 8
  $[last][last] => 5 End 4
  $[*][last] => 3 5 End 7
  $[*][last - 1 to last] => 2 3 4 5 End 7
  $[*][1, 0] => 2 1 5 4 End 8
  $[*][2] => 3 End 5 ; 3 22033 5
  $[0][last ? (@ > 5)] => 22033 1
  $[0][$[*] ? (@[last] == 5)[0] - 3] => 3 End 11 ; 2 End 11
{"n":5,"s":"Anna"}
  $n => 5 End 0
  $p => "An" End 0
  $none => null End 0
  $n + $.n => 10 End 2
  $n[0] => 5 End 0 ; 22039 0
  $n.a => End 0 ; 2203C 0
  $t ? (@ == true) => true End 0
  $ ? (@.n >= $n && @.s starts with $p) => {"n":5,"s":"Anna"} End 3 ; {"n":5,"s":"Anna"} End 4
  $.s ? (@ starts with $n) => End 2
  $ ? ((@.s starts with $none) is unknown) => {"n":5,"s":"Anna"} End 2
  $ ? (@.n == $none) => End 2
  $.n.* => End 2 ; 2203C 1
  "x" => "x" End 0
  "x".type() => "string" End 0
  null => null End 0
  1.50 => 1.5 End 0
{"a":[1,2],"b":[2,3]}
  $ ? (@.a == @.b).a[0] => 1 End 13 ; End 4
  $ ? (@.a < @.b).a[0] => 1 End 8 ; End 4
  $ ? (@.a > @.b).a[0] => End 12 ; End 4
  $ ? (@.a[*] == @.b[*]).a[0] => 1 End 13 ; 1 End 15
  $ ? (@.a[*] <= @.b[0]).a[0] => 1 End 8 ; 1 End 13
  $ ? (exists(@.a ? (@ > 1))).a[0] => 1 End 6 ; End 2
  $.a + $.b => 22038 3 ; 22036 2
  $.a[0] + $.b[0] => 3 End 6
  $.*[*] => 1 2 2 3 End 6
  $.*.size() => 2 2 End 2
  $.* ? (@.size() == 2) => End 6 ; [1,2] [2,3] End 2
null
  $.bigint() => 2203G 0
  $.boolean() => 2203G 0
  $.decimal() => 2203G 0
  $.integer() => 2203G 0
  $.number() => 2203G 0
  $.string() => 2203G 0
true
  $.bigint() => 2203G 0
  $.boolean() => true End 0
  $.decimal() => 2203G 0
  $.integer() => 2203G 0
  $.number() => 2203G 0
  $.string() => "true" End 0
false
  $.bigint() => 2203G 0
  $.boolean() => false End 0
  $.decimal() => 2203G 0
  $.integer() => 2203G 0
  $.number() => 2203G 0
  $.string() => "false" End 0
2.5
  $.bigint() => 3 End 0
  $.boolean() => 2203G 0
  $.decimal() => 2.5 End 0
  $.integer() => 3 End 0
  $.number() => 2.5 End 0
  $.string() => "2.5" End 0
  $.string().type() => "string" End 0
  $.number().type() => "number" End 0
  $.integer().string() => "3" End 0
  $.string().number() => 2.5 End 0
  $.integer().bigint().decimal().number().string().size() => 1 End 0
  -$.integer() => -3 End 0
  -$.string() => 22036 0
  $.string() + 1 => 22036 0
  $.integer() + $.number() => 5.5 End 0
  1 + $.boolean() => 2203G 0
  $ ? (@.integer() == 3) => 2.5 End 0
  $ ? (@.string() == "2.5") => 2.5 End 0
  $ ? (@.string() starts with "2") => 2.5 End 0
  $ ? (@.boolean() == true) => End 0
  $ ? ((@.boolean() == true) is unknown) => 2.5 End 0
  $ ? (exists(@.boolean())) => End 0
  $ ? ((exists(@.boolean())) is unknown) => 2.5 End 0
  $ ? (exists(@.integer())) => 2.5 End 0
-2.5
  $.bigint() => -3 End 0
  $.boolean() => 2203G 0
  $.decimal() => -2.5 End 0
  $.integer() => -3 End 0
  $.number() => -2.5 End 0
  $.string() => "-2.5" End 0
3000000000
  $.bigint() => 3000000000 End 0
  $.boolean() => 2203G 0
  $.decimal() => 3000000000 End 0
  $.integer() => 22003 0
  $.number() => 3000000000 End 0
  $.string() => "3000000000" End 0
9223372036854775808
  $.bigint() => 22003 0
  $.boolean() => 2203G 0
  $.decimal() => 9223372036854775808 End 0
  $.integer() => 22003 0
  $.number() => 9223372036854775808 End 0
  $.string() => "9223372036854775808" End 0
1e400
  $.bigint() => 22003 0
  $.boolean() => 2203G 0
  $.decimal() => 22003 0
  $.integer() => 22003 0
  $.number() => 22003 0
  $.string() => "1e400" End 0
"12.5"
  $.bigint() => 13 End 0
  $.boolean() => 2203G 0
  $.decimal() => 12.5 End 0
  $.integer() => 13 End 0
  $.number() => 12.5 End 0
  $.string() => "12.5" End 0
  $.number() + 1 => 13.5 End 0
  $ + 1 => 22036 0
  $ ? (@.number() > 12) => "12.5" End 0
  $ ? (@ > 12) => End 0
"1e400"
  $.bigint() => 22003 0
  $.boolean() => 2203G 0
  $.decimal() => 22003 0
  $.integer() => 22003 0
  $.number() => 22003 0
  $.string() => "1e400" End 0
"true"
  $.bigint() => 2203G 0
  $.boolean() => true End 0
  $.decimal() => 2203G 0
  $.integer() => 2203G 0
  $.number() => 2203G 0
  $.string() => "true" End 0
  $.boolean().type() => "boolean" End 0
  $.boolean().string() => "true" End 0
  $ ? (@.boolean() == true) => "true" End 0
"x"
  $.bigint() => 2203G 0
  $.boolean() => 2203G 0
  $.decimal() => 2203G 0
  $.integer() => 2203G 0
  $.number() => 2203G 0
  $.string() => "x" End 0
2147483647.5
  $.integer() => 22003 0
  $.bigint() => 2147483648 End 0
-2147483648.4
  $.integer() => -2147483648 End 0
"TRUE"
  $.boolean() => 2203G 0
" 1"
  $.number() => 2203G 0
[1,2]
  $.bigint() => 1 2 End 2 ; 2203F 0
  $.boolean() => 2203G 1 ; 2203F 0
  $.decimal() => 1 2 End 2 ; 2203F 0
  $.integer() => 1 2 End 2 ; 2203F 0
  $.number() => 1 2 End 2 ; 2203F 0
  $.string() => "1" "2" End 2 ; 2203F 0
  $[*].string() => "1" "2" End 2
  $.string().type() => "string" "string" End 2 ; 2203F 0
  $[*] ? (@.string() == "2") => 2 End 2
  $[$[0].integer()] => 2 End 3
[[1]]
  $.number() => 2203F 1 ; 2203F 0
  $[*][*].number() => 1 End 2
[]
  $.bigint() => End 0 ; 2203F 0
  $.boolean() => End 0 ; 2203F 0
  $.decimal() => End 0 ; 2203F 0
  $.integer() => End 0 ; 2203F 0
  $.number() => End 0 ; 2203F 0
  $.string() => End 0 ; 2203F 0
{}
  $.bigint() => 2203F 0
  $.boolean() => 2203F 0
  $.decimal() => 2203F 0
  $.integer() => 2203F 0
  $.number() => 2203F 0
  $.string() => 2203F 0
{"string":1,"number":"2"}
  $.string => 1 End 2
  $.number => "2" End 2
  $.string.string() => "1" End 2
  $.number.number() => 2 End 2
  $.keyvalue().string() => 2203F 1
  $.keyvalue().id.string() => "0" "0" End 2
  $.keyvalue().name.string() => "string" "number" End 2
{"n":5}
  $n.string() => "5" End 0
  $p.number() => 2203G 0
  $t.string() => "true" End 0
  $none.string() => 2203G 0
  "12".integer() => 12 End 0
  null.string() => 2203G 0
  true.boolean() => true End 0
  (1.50).string() => "1.5" End 0
  $.size().string() => "1" End 0
  $.n.bigint() + $n => 10 End 1
"##;
