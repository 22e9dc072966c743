// Groups of statements. A line with `=` in front has the tree of the statement at the head of its group, and one with
// `!` has another.

pub(super) const SPELLINGS: &str =
    r##"SELECT * FROM JSON_TABLE(doc, '$' COLUMNS (a BOOLEAN EXISTS));
= select * from json_table(doc, '$' columns (a boolean exists path '$.a'));
= SELECT * FROM JSON_TABLE(doc, '$' COLUMNS ("a" BOOLEAN EXISTS PATH 'lax $."a"' FALSE ON ERROR));
= SELECT * FROM JSON_TABLE(doc, '$' COLUMNS (a BOOLEAN EXISTS FALSE ON ERROR));
! SELECT * FROM JSON_TABLE(doc, '$' COLUMNS (a BOOLEAN));
! SELECT * FROM JSON_TABLE(doc, '$' COLUMNS (a BOOLEAN PATH '$.a'));
! SELECT * FROM JSON_TABLE(doc, '$' COLUMNS (A BOOLEAN EXISTS));
! SELECT * FROM JSON_TABLE(doc, '$' COLUMNS (A BOOLEAN EXISTS PATH '$.a'));
! SELECT * FROM JSON_TABLE(doc, '$' COLUMNS (a BOOLEAN EXISTS PATH '$.b'));
! SELECT * FROM JSON_TABLE(doc, '$' COLUMNS (a BOOLEAN EXISTS PATH 'strict $.a'));
! SELECT * FROM JSON_TABLE(doc, '$' COLUMNS (a BOOLEAN EXISTS TRUE ON ERROR));
! SELECT * FROM JSON_TABLE(doc, '$' COLUMNS (a BOOLEAN EXISTS UNKNOWN ON ERROR));
! SELECT * FROM JSON_TABLE(doc, '$' COLUMNS (a BOOLEAN EXISTS ERROR ON ERROR));
! SELECT * FROM JSON_TABLE(doc, '$' COLUMNS (a BOOLEAN EXISTS, b BOOLEAN EXISTS));
! SELECT * FROM JSON_TABLE(doc, '$' COLUMNS (a FOR ORDINALITY));

SELECT 1;
= select 1 ;
= SeLeCt  1;
= SELECT +1;
= SELECT + 01.00;
= SELECT 1 AS one;
= SELECT 1 As "from";
! SELECT -1;
! SELECT 1.1;
! SELECT 10;
! SELECT '1';
! SELECT TRUE;
! SELECT 1, 1;

SELECT -0.5, 0;
= SELECT - 00.50, -0.0;
! SELECT -5, 0;

SELECT NULL, TRUE, FALSE;
= SELECT null, True, falsE;
! SELECT NULL, TRUE, TRUE;
! SELECT NULL, TRUE, NULL;
! SELECT 'null', TRUE, FALSE;

SELECT 'it''s';
! SELECT 'its';
! SELECT 'it''''s';
! SELECT 'It''s';

SELECT JSON_EXISTS(doc, '$.a');
= select json_exists ( "doc" , '$.a' ) as x;
= SELECT JSON_EXISTS(doc FORMAT JSON, '$.a');
= SELECT JSON_EXISTS(doc format json ENCODING utf8, '$.a');
= SELECT JSON_EXISTS(doc, '$.a' FALSE ON ERROR);
= SELECT JSON_EXISTS(doc, 'lax $.a');
= SELECT JSON_EXISTS(doc, '($)."a"');
= SELECT JSON_EXISTS(doc, ' ( ( $ . "\u0061" ) ) ');
! SELECT JSON_EXISTS(doc, 'strict $.a');
! SELECT JSON_EXISTS(doc, '$.A');
! SELECT JSON_EXISTS(doc, '$.*');
! SELECT JSON_EXISTS(doc, '$.a' TRUE ON ERROR);
! SELECT JSON_EXISTS(doc, '$.a' UNKNOWN ON ERROR);
! SELECT JSON_EXISTS(doc, '$.a' ERROR ON ERROR);
! SELECT JSON_EXISTS(doc, '$.a' PASSING 1 AS a);
! SELECT JSON_VALUE(doc, '$.a');
! SELECT JSON_QUERY(doc, '$.a');

SELECT JSON_EXISTS(doc, '$x' PASSING 1 AS x, 'b' AS y);
= SELECT JSON_EXISTS(doc, '$x' passing +1.0 as "x", 'b' As y FALSE ON ERROR);
! SELECT JSON_EXISTS(doc, '$x' PASSING 'b' AS y, 1 AS x);
! SELECT JSON_EXISTS(doc, '$x' PASSING 1 AS x);
! SELECT JSON_EXISTS(doc, '$x' PASSING 1 AS x, 'b' AS y, 'b' AS y);
! SELECT JSON_EXISTS(doc, '$x' PASSING 1 AS X, 'b' AS y);
! SELECT JSON_EXISTS(doc, '$y' PASSING 1 AS x, 'b' AS y);

SELECT JSON_VALUE(doc, '$.a + 15 * $.b');
= SELECT JSON_VALUE(doc, '$.a+(1.50e1*$.b)');
! SELECT JSON_VALUE(doc, '($.a + 15) * $.b');
! SELECT JSON_VALUE(doc, '$.a - 15 * $.b');
! SELECT JSON_VALUE(doc, '$.a + 15 / $.b');
! SELECT JSON_VALUE(doc, '$.a + "15" * $.b');

SELECT JSON_VALUE(doc, '$ - 1 - 2');
= SELECT JSON_VALUE(doc, '($ - 1) - 2');
! SELECT JSON_VALUE(doc, '$ - (1 - 2)');
! SELECT JSON_VALUE(doc, '-$ - 1 - 2');
! SELECT JSON_VALUE(doc, '+$ - 1 - 2');

SELECT JSON_VALUE(doc, '$[0, 1 to last].size()');
= SELECT JSON_VALUE(doc, '$ [0,1to last] .size ( )');
! SELECT JSON_VALUE(doc, '$[0, 1, last].size()');
! SELECT JSON_VALUE(doc, '$[0 to 1, last].size()');
! SELECT JSON_VALUE(doc, '$[1 to last].size()');
! SELECT JSON_VALUE(doc, '$[*].size()');
! SELECT JSON_VALUE(doc, '$[0, 1 to last].type()');
! SELECT JSON_VALUE(doc, '$[0, 1 to last].size');

SELECT JSON_VALUE(doc, '$ ? (@.a <> 1 && (exists(@.b) || @ starts with "c"))');
= SELECT JSON_VALUE(doc, '$?((@.a!=1)&&((exists(@.b))||@ starts with "c"))');
! SELECT JSON_VALUE(doc, '$ ? (@.a <> 1 && exists(@.b) || @ starts with "c")');
! SELECT JSON_VALUE(doc, '$ ? (@.a == 1 && (exists(@.b) || @ starts with "c"))');
! SELECT JSON_VALUE(doc, '$ ? (@.a <> 1 && (!exists(@.b) || @ starts with "c"))');
! SELECT JSON_VALUE(doc, '$ ? (@.a <> 1 && ((exists(@.b)) is unknown || @ starts with "c"))');
! SELECT JSON_VALUE(doc, '$ ? (@.a <> 1 && (exists(@.b) || @ starts with $c))');
! SELECT JSON_VALUE(doc, '$ ? (@.a <> 1 && (exists($.b) || @ starts with "c"))');

SELECT JSON_VALUE(doc, '$');
= SELECT JSON_VALUE(doc, '$' RETURNING VARCHAR);
= SELECT JSON_VALUE(doc, '$' NULL ON EMPTY);
= SELECT JSON_VALUE(doc, '$' NULL ON ERROR);
= SELECT json_value(doc FORMAT JSON, '$' returning varchar null on empty null on error);
! SELECT JSON_VALUE(doc, '$' ERROR ON EMPTY);
! SELECT JSON_VALUE(doc, '$' ERROR ON ERROR);
! SELECT JSON_VALUE(doc, '$' DEFAULT NULL ON EMPTY);
! SELECT JSON_VALUE(doc, '$' DEFAULT NULL ON ERROR);
! SELECT JSON_VALUE(doc, '$' RETURNING VARCHAR(1));

SELECT JSON_VALUE(doc, '$' DEFAULT 1 ON EMPTY DEFAULT 2 ON ERROR);
= SELECT JSON_VALUE(doc, '$' default 1.0 on empty default +2 on error);
! SELECT JSON_VALUE(doc, '$' DEFAULT 2 ON EMPTY DEFAULT 1 ON ERROR);

SELECT JSON_VALUE(doc, '$' RETURNING INTEGER);
= SELECT JSON_VALUE(doc, '$' RETURNING INT);
! SELECT JSON_VALUE(doc, '$' RETURNING BIGINT);
! SELECT JSON_VALUE(doc, '$' RETURNING BOOLEAN);

SELECT JSON_VALUE(doc, '$' RETURNING NUMERIC);
= SELECT JSON_VALUE(doc, '$' RETURNING DECIMAL);
! SELECT JSON_VALUE(doc, '$' RETURNING NUMERIC(38));

SELECT JSON_VALUE(doc, '$' RETURNING NUMERIC(5));
= SELECT JSON_VALUE(doc, '$' RETURNING NUMERIC(5, 0));
= SELECT JSON_VALUE(doc, '$' RETURNING decimal(05,00));
! SELECT JSON_VALUE(doc, '$' RETURNING NUMERIC(5, 1));
! SELECT JSON_VALUE(doc, '$' RETURNING NUMERIC(6));

SELECT JSON_VALUE(doc, '$' RETURNING VARCHAR(10));
= SELECT JSON_VALUE(doc, '$' RETURNING VarChar ( 010 ));
! SELECT JSON_VALUE(doc, '$' RETURNING VARCHAR(100));

SELECT JSON_QUERY(doc, '$');
= SELECT JSON_QUERY(doc, '$' WITHOUT WRAPPER);
= SELECT JSON_QUERY(doc, '$' WITHOUT ARRAY WRAPPER);
= SELECT JSON_QUERY(doc, '$' NULL ON EMPTY);
= SELECT JSON_QUERY(doc, '$' NULL ON ERROR);
= SELECT JSON_QUERY(doc, '$' without array wrapper null on empty null on error);
! SELECT JSON_QUERY(doc, '$' KEEP QUOTES);
! SELECT JSON_QUERY(doc, '$' ERROR ON EMPTY);
! SELECT JSON_QUERY(doc, '$' ERROR ON ERROR);
! SELECT JSON_QUERY(doc, '$' EMPTY ARRAY ON EMPTY);
! SELECT JSON_QUERY(doc, '$' EMPTY OBJECT ON ERROR);

SELECT JSON_QUERY(doc, '$' WITH WRAPPER);
= SELECT JSON_QUERY(doc, '$' WITH ARRAY WRAPPER);
= SELECT JSON_QUERY(doc, '$' WITH UNCONDITIONAL WRAPPER);
= SELECT JSON_QUERY(doc, '$' with unconditional array wrapper);
! SELECT JSON_QUERY(doc, '$' WITH CONDITIONAL WRAPPER);
! SELECT JSON_QUERY(doc, '$' WITHOUT WRAPPER);

SELECT JSON_QUERY(doc, '$' WITH CONDITIONAL WRAPPER EMPTY ARRAY ON EMPTY EMPTY OBJECT ON ERROR);
= SELECT JSON_QUERY(doc, '$' WITH conditional ARRAY WRAPPER empty array ON EMPTY empty object ON ERROR);
! SELECT JSON_QUERY(doc, '$' WITH CONDITIONAL WRAPPER EMPTY OBJECT ON EMPTY EMPTY ARRAY ON ERROR);

SELECT JSON_QUERY(doc, '$' KEEP QUOTES);
= SELECT JSON_QUERY(doc, '$' keep quotes on scalar string);
! SELECT JSON_QUERY(doc, '$' OMIT QUOTES);

SELECT JSON_QUERY(doc, '$' OMIT QUOTES);
= SELECT JSON_QUERY(doc, '$' omit quotes On Scalar String);
! SELECT JSON_QUERY(doc, '$');

SELECT doc IS JSON;
= SELECT doc IS JSON VALUE;
= SELECT "doc" is json value;
= SELECT doc IS JSON WITHOUT UNIQUE;
= SELECT doc IS JSON VALUE WITHOUT UNIQUE KEYS;
! SELECT doc IS NOT JSON;
! SELECT doc IS JSON ARRAY;
! SELECT doc IS JSON OBJECT;
! SELECT doc IS JSON SCALAR;
! SELECT doc IS JSON WITH UNIQUE KEYS;

SELECT doc IS NOT JSON OBJECT WITH UNIQUE KEYS;
= SELECT doc is not json object with unique;
! SELECT doc IS NOT JSON OBJECT;
! SELECT doc IS NOT JSON WITH UNIQUE KEYS;

SELECT JSON_OBJECT('a' VALUE 1, 'b' VALUE 2);
= SELECT JSON_OBJECT(KEY 'a' VALUE 1, 'b' : 2);
= SELECT json_object('a':1, key 'b' value 2);
= SELECT JSON_OBJECT('a' VALUE 1, 'b' VALUE 2 NULL ON NULL);
= SELECT JSON_OBJECT('a' VALUE 1, 'b' VALUE 2 WITHOUT UNIQUE);
= SELECT JSON_OBJECT('a' VALUE 1, 'b' VALUE 2 null on null without unique keys);
! SELECT JSON_OBJECT('b' VALUE 2, 'a' VALUE 1);
! SELECT JSON_OBJECT('a' VALUE 1);
! SELECT JSON_OBJECT(1 VALUE 'a', 'b' VALUE 2);
! SELECT JSON_OBJECT('a' VALUE 1, 'b' VALUE 2 ABSENT ON NULL);
! SELECT JSON_OBJECT('a' VALUE 1, 'b' VALUE 2 WITH UNIQUE KEYS);

SELECT JSON_OBJECT('a' VALUE 1 ABSENT ON NULL WITH UNIQUE KEYS);
= SELECT JSON_OBJECT('a' : 1 absent on null with unique);
! SELECT JSON_OBJECT('a' VALUE 1 NULL ON NULL WITH UNIQUE KEYS);
! SELECT JSON_OBJECT('a' VALUE 1 ABSENT ON NULL WITHOUT UNIQUE KEYS);

SELECT JSON_OBJECT('k' VALUE doc IS JSON WITH UNIQUE KEYS);
= SELECT JSON_OBJECT('k' VALUE doc IS JSON VALUE WITH UNIQUE NULL ON NULL);
= SELECT JSON_OBJECT('k' VALUE doc IS JSON WITH UNIQUE KEYS WITHOUT UNIQUE KEYS);
! SELECT JSON_OBJECT('k' VALUE doc IS JSON NULL ON NULL WITH UNIQUE KEYS);
! SELECT JSON_OBJECT('k' VALUE doc IS JSON WITH UNIQUE KEYS WITH UNIQUE KEYS);

SELECT JSON_OBJECT('k' VALUE doc IS JSON NULL ON NULL WITH UNIQUE KEYS);
= SELECT JSON_OBJECT('k' VALUE doc IS JSON WITHOUT UNIQUE WITH UNIQUE);

SELECT JSON_OBJECT(doc IS JSON VALUE 1);
= SELECT JSON_OBJECT(doc IS JSON VALUE VALUE 1);
= SELECT JSON_OBJECT(doc IS JSON : 1);
= SELECT JSON_OBJECT(KEY doc IS JSON VALUE VALUE 1 NULL ON NULL);
! SELECT JSON_OBJECT(doc IS JSON ARRAY VALUE 1);

SELECT JSON_OBJECT(doc IS JSON VALUE NULL NULL ON NULL);
= SELECT JSON_OBJECT(doc IS JSON : NULL);
= SELECT JSON_OBJECT(KEY doc IS JSON VALUE NULL);
! SELECT JSON_OBJECT(doc IS JSON VALUE NULL ABSENT ON NULL);

SELECT JSON_ARRAY(1, NULL, JSON_ARRAY(), JSON_OBJECT());
= SELECT json_array(1, NULL, json_array(), json_object() absent on null);
! SELECT JSON_ARRAY(1, NULL, JSON_ARRAY(), JSON_OBJECT() NULL ON NULL);
! SELECT JSON_ARRAY(1, NULL, JSON_OBJECT(), JSON_ARRAY());
! SELECT JSON_ARRAY(1, NULL, JSON_ARRAY());
! SELECT 1, NULL, JSON_ARRAY(), JSON_OBJECT();

SELECT * FROM JSON_TABLE(doc, '$' COLUMNS (a INTEGER));
= SELECT * FROM JSON_TABLE(doc, '$' COLUMNS (a INTEGER)) AS t;
= SELECT * FROM JSON_TABLE(doc, '$' COLUMNS (a INTEGER)) "t";
= select * from json_table("doc" format json, '$' columns (a int)) path;
= SELECT * FROM JSON_TABLE(doc, '$' COLUMNS ("a" INTEGER));
= SELECT * FROM JSON_TABLE(doc, '$' COLUMNS (a INTEGER PATH 'lax $.a'));
= SELECT * FROM JSON_TABLE(doc, '$' COLUMNS (a INTEGER PATH '$."a"' NULL ON EMPTY NULL ON ERROR));
= SELECT * FROM JSON_TABLE(doc, '$' COLUMNS (a INTEGER) EMPTY ON ERROR);
= SELECT * FROM JSON_TABLE(doc, '$' COLUMNS (a INTEGER) PLAN DEFAULT (OUTER, UNION));
= SELECT * FROM JSON_TABLE(doc, '$' COLUMNS (a INTEGER) PLAN DEFAULT (UNION, OUTER));
= SELECT * FROM JSON_TABLE(doc, '$' COLUMNS (a INTEGER) PLAN DEFAULT (OUTER));
= SELECT * FROM JSON_TABLE(doc, '$' COLUMNS (a INTEGER) plan default (union) empty on error);
! SELECT a FROM JSON_TABLE(doc, '$' COLUMNS (a INTEGER));
! SELECT * FROM JSON_TABLE(doc, '$' COLUMNS (A INTEGER));
! SELECT * FROM JSON_TABLE(doc, '$' AS t COLUMNS (a INTEGER));
! SELECT * FROM JSON_TABLE(doc, '$.a' COLUMNS (a INTEGER));
! SELECT * FROM JSON_TABLE(doc, '$' PASSING 1 AS a COLUMNS (a INTEGER));
! SELECT * FROM JSON_TABLE(doc, '$' COLUMNS (a INTEGER PATH 'strict $.a'));
! SELECT * FROM JSON_TABLE(doc, '$' COLUMNS (a INTEGER NULL ON EMPTY ERROR ON ERROR));
! SELECT * FROM JSON_TABLE(doc, '$' COLUMNS (a INTEGER ERROR ON EMPTY));
! SELECT * FROM JSON_TABLE(doc, '$' COLUMNS (a BIGINT));
! SELECT * FROM JSON_TABLE(doc, '$' COLUMNS (a FOR ORDINALITY));
! SELECT * FROM JSON_TABLE(doc, '$' COLUMNS (a INTEGER, a INTEGER));
! SELECT * FROM JSON_TABLE(doc, '$' COLUMNS (a INTEGER) ERROR ON ERROR);
! SELECT * FROM JSON_TABLE(doc, '$' COLUMNS (a INTEGER) PLAN DEFAULT (INNER));
! SELECT * FROM JSON_TABLE(doc, '$' COLUMNS (a INTEGER) PLAN DEFAULT (CROSS));
! SELECT * FROM JSON_TABLE(doc, '$' COLUMNS (a INTEGER) PLAN (t));

SELECT * FROM JSON_TABLE(doc, '$' COLUMNS ("a ""b" VARCHAR));
= SELECT * FROM JSON_TABLE(doc, '$' COLUMNS ("a ""b" VARCHAR PATH '$."a \"b"'));

SELECT * FROM JSON_TABLE(doc, '$' COLUMNS (a VARCHAR FORMAT JSON));
= SELECT * FROM JSON_TABLE(doc, '$' COLUMNS (a varchar format json encoding UTF8));
= SELECT * FROM JSON_TABLE(doc, '$' COLUMNS (a VARCHAR FORMAT JSON PATH '$.a' WITHOUT ARRAY WRAPPER));
= SELECT * FROM JSON_TABLE(doc, '$' COLUMNS (a VARCHAR FORMAT JSON NULL ON EMPTY NULL ON ERROR));
! SELECT * FROM JSON_TABLE(doc, '$' COLUMNS (a VARCHAR));
! SELECT * FROM JSON_TABLE(doc, '$' COLUMNS (b VARCHAR FORMAT JSON PATH '$.a'));
! SELECT * FROM JSON_TABLE(doc, '$' COLUMNS (a VARCHAR FORMAT JSON PATH '$.b'));
! SELECT * FROM JSON_TABLE(doc, '$' COLUMNS (a VARCHAR FORMAT JSON KEEP QUOTES));
! SELECT * FROM JSON_TABLE(doc, '$' COLUMNS (a VARCHAR FORMAT JSON WITH WRAPPER));
! SELECT * FROM JSON_TABLE(doc, '$' COLUMNS (a VARCHAR FORMAT JSON ERROR ON EMPTY));
! SELECT * FROM JSON_TABLE(doc, '$' COLUMNS (a VARCHAR FORMAT JSON ERROR ON ERROR));

SELECT * FROM JSON_TABLE(doc, '$' COLUMNS (NESTED PATH '$.x' COLUMNS (a INT), b INT));
= SELECT * FROM JSON_TABLE(doc, '$' COLUMNS (nested '$.x' columns (a INT), b INT));
! SELECT * FROM JSON_TABLE(doc, '$' COLUMNS (NESTED PATH '$.x' COLUMNS (a INT, b INT)));
! SELECT * FROM JSON_TABLE(doc, '$' COLUMNS (NESTED PATH '$.x' AS x COLUMNS (a INT), b INT));
! SELECT * FROM JSON_TABLE(doc, '$' COLUMNS (NESTED PATH '$.y' COLUMNS (a INT), b INT));
! SELECT * FROM JSON_TABLE(doc, '$' COLUMNS (b INT, NESTED PATH '$.x' COLUMNS (a INT)));

SELECT * FROM JSON_TABLE(doc, '$' COLUMNS (a INT) PLAN DEFAULT (INNER));
= SELECT * FROM JSON_TABLE(doc, '$' COLUMNS (a INT) PLAN DEFAULT (INNER, UNION));
= SELECT * FROM JSON_TABLE(doc, '$' COLUMNS (a INT) PLAN DEFAULT (union, inner));
! SELECT * FROM JSON_TABLE(doc, '$' COLUMNS (a INT) PLAN DEFAULT (INNER, CROSS));

SELECT * FROM JSON_TABLE(doc, '$' COLUMNS (a INT) PLAN DEFAULT (CROSS));
= SELECT * FROM JSON_TABLE(doc, '$' COLUMNS (a INT) PLAN DEFAULT (OUTER, CROSS));
= SELECT * FROM JSON_TABLE(doc, '$' COLUMNS (a INT) PLAN DEFAULT (CROSS, OUTER));

SELECT * FROM JSON_TABLE(doc, '$' AS r COLUMNS (a INT) PLAN (r OUTER x));
= SELECT * FROM JSON_TABLE(doc, '$' AS "r" COLUMNS (a INT) plan ("r" outer ("x")));
! SELECT * FROM JSON_TABLE(doc, '$' AS r COLUMNS (a INT) PLAN (r INNER x));
! SELECT * FROM JSON_TABLE(doc, '$' AS r COLUMNS (a INT) PLAN (x OUTER r));
! SELECT * FROM JSON_TABLE(doc, '$' AS r COLUMNS (a INT) PLAN (r OUTER X));
! SELECT * FROM JSON_TABLE(doc, '$' AS r COLUMNS (a INT) PLAN (r UNION x));
! SELECT * FROM JSON_TABLE(doc, '$' AS r COLUMNS (a INT) PLAN DEFAULT (OUTER));

SELECT * FROM JSON_TABLE(doc, '$' COLUMNS (a INT) PLAN (x UNION y UNION z));
= SELECT * FROM JSON_TABLE(doc, '$' COLUMNS (a INT) PLAN ((x UNION y) UNION (z)));
! SELECT * FROM JSON_TABLE(doc, '$' COLUMNS (a INT) PLAN (x UNION (y UNION z)));
! SELECT * FROM JSON_TABLE(doc, '$' COLUMNS (a INT) PLAN ((x CROSS y) UNION z));
! SELECT * FROM JSON_TABLE(doc, '$' COLUMNS (a INT) PLAN (x UNION z UNION y));

SELECT JSON_ARRAYAGG(a) FROM JSON_TABLE(doc, '$' COLUMNS (a INT));
= SELECT json_arrayagg("a" absent on null) as all_of_them FROM JSON_TABLE(doc, '$' COLUMNS (a INT));
! SELECT JSON_ARRAYAGG(a NULL ON NULL) FROM JSON_TABLE(doc, '$' COLUMNS (a INT));
! SELECT JSON_ARRAYAGG('a') FROM JSON_TABLE(doc, '$' COLUMNS (a INT));
! SELECT JSON_ARRAY(a) FROM JSON_TABLE(doc, '$' COLUMNS (a INT));
! SELECT JSON_ARRAYAGG(a) FROM JSON_TABLE(doc, '$' COLUMNS (a BIGINT));

SELECT JSON_OBJECTAGG('k' VALUE a) FROM JSON_TABLE(doc, '$' COLUMNS (a INT));
= SELECT json_objectagg(key 'k' value a) FROM JSON_TABLE(doc, '$' COLUMNS (a INT));
= SELECT JSON_OBJECTAGG('k' : a NULL ON NULL WITHOUT UNIQUE) FROM JSON_TABLE(doc, '$' COLUMNS (a INT));
! SELECT JSON_OBJECTAGG(a VALUE 'k') FROM JSON_TABLE(doc, '$' COLUMNS (a INT));
! SELECT JSON_OBJECTAGG('k' VALUE a ABSENT ON NULL) FROM JSON_TABLE(doc, '$' COLUMNS (a INT));
! SELECT JSON_OBJECTAGG('k' VALUE a WITH UNIQUE KEYS) FROM JSON_TABLE(doc, '$' COLUMNS (a INT));
! SELECT JSON_OBJECT('k' VALUE a) FROM JSON_TABLE(doc, '$' COLUMNS (a INT));

SELECT a, 1, JSON_OBJECT('k' VALUE JSON_ARRAY(a)) FROM JSON_TABLE(doc, '$' COLUMNS (a INT));
= SELECT a AS b, 1 AS "a", json_object('k' : json_array(a)) AS x FROM JSON_TABLE(doc, '$' COLUMNS (a INT)) b;
! SELECT b, 1, JSON_OBJECT('k' VALUE JSON_ARRAY(a)) FROM JSON_TABLE(doc, '$' COLUMNS (a INT));
! SELECT a, 2, JSON_OBJECT('k' VALUE JSON_ARRAY(a)) FROM JSON_TABLE(doc, '$' COLUMNS (a INT));
! SELECT a, 1, JSON_OBJECT('k' VALUE JSON_ARRAY(1)) FROM JSON_TABLE(doc, '$' COLUMNS (a INT));
! SELECT a, 1, JSON_OBJECT('k' VALUE JSON_ARRAY(a, a)) FROM JSON_TABLE(doc, '$' COLUMNS (a INT));
! SELECT a, 1, JSON_OBJECT('k' VALUE JSON_ARRAY(a NULL ON NULL)) FROM JSON_TABLE(doc, '$' COLUMNS (a INT));
! SELECT a, 1, JSON_OBJECT('k' VALUE JSON_ARRAY(a) WITH UNIQUE KEYS) FROM JSON_TABLE(doc, '$' COLUMNS (a INT));

SELECT JSON_EXISTS(doc, '$.a - $.b - $.c');
= SELECT JSON_EXISTS(doc, '(($."a" - $."b") - $."c")');
! SELECT JSON_EXISTS(doc, '$.a - ($.b - $.c)');

SELECT JSON_EXISTS(doc, '$.a - ($.b - $.c)');
= SELECT JSON_EXISTS(doc, '($."a" - ($."b" - $."c"))');

SELECT JSON_EXISTS(doc, '$[0to 1]');
= SELECT JSON_EXISTS(doc, '$[0 to 1]');
! SELECT JSON_EXISTS(doc, '$[0, 1]');

SELECT JSON_EXISTS(doc, '$ ? (@ == 1) ? (@ > 0)');
= SELECT JSON_EXISTS(doc, '$?(@ == 1)?(@ > 0)');
! SELECT JSON_EXISTS(doc, '$ ? (@ == 1 && @ > 0)');
! SELECT JSON_EXISTS(doc, '$ ? (@ > 0) ? (@ == 1)');

SELECT JSON_EXISTS(doc, 'strict $[*]');
! SELECT JSON_EXISTS(doc, '$[*]');
! SELECT JSON_EXISTS(doc, 'strict $.*');

SELECT JSON_EXISTS(doc, 'lax $.a.lax');
= SELECT JSON_EXISTS(doc, '$."a"."lax"');

SELECT JSON_EXISTS(doc, '$.size + $.size()');
= SELECT JSON_EXISTS(doc, '($."size" + $.size())');
! SELECT JSON_EXISTS(doc, '$.size() + $.size');

SELECT JSON_EXISTS(doc, '-$.a * 2');
= SELECT JSON_EXISTS(doc, '((-$."a") * 2)');
! SELECT JSON_EXISTS(doc, '-($.a * 2)');

SELECT JSON_EXISTS(doc, '- + $');
= SELECT JSON_EXISTS(doc, '(-(+$))');
! SELECT JSON_EXISTS(doc, '+ - $');
! SELECT JSON_EXISTS(doc, '-$');

SELECT JSON_EXISTS(doc, '1 - 2 * 3 % 4 / 5');
= SELECT JSON_EXISTS(doc, '(1 - (((2 * 3) % 4) / 5))');
! SELECT JSON_EXISTS(doc, '((1 - 2) * 3) % 4 / 5');
! SELECT JSON_EXISTS(doc, '1 - 2 * (3 % 4) / 5');
! SELECT JSON_EXISTS(doc, '1 - 2 * 3 % (4 / 5)');

SELECT JSON_EXISTS(doc, '$ ? (@.a == 1 && @.b == 2 || !(@.c == 3))');
= SELECT JSON_EXISTS(doc, '$?(((@."a" == 1) && (@."b" == 2)) || (!(@."c" == 3)))');
! SELECT JSON_EXISTS(doc, '$ ? (@.a == 1 && (@.b == 2 || !(@.c == 3)))');

SELECT JSON_EXISTS(doc, '$ ? ((@.a + 1) * 2 > 3)');
= SELECT JSON_EXISTS(doc, '$?(((@."a" + 1) * 2) > 3)');
! SELECT JSON_EXISTS(doc, '$ ? (@.a + 1 * 2 > 3)');

SELECT JSON_EXISTS(doc, '$ ? (((@.a == 1)))');
= SELECT JSON_EXISTS(doc, '$?(@."a" == 1)');

SELECT JSON_EXISTS(doc, '$ ? ((@.a == 1) is unknown)');
= SELECT JSON_EXISTS(doc, '$?((@."a" == 1) is unknown)');
! SELECT JSON_EXISTS(doc, '$ ? (@.a == 1)');

SELECT JSON_EXISTS(doc, '$ ? (!exists(@.a))');
= SELECT JSON_EXISTS(doc, '$?(!exists(@."a"))');
! SELECT JSON_EXISTS(doc, '$ ? (exists(@.a))');

SELECT JSON_EXISTS(doc, '$ ? (@.s starts with $p)');
= SELECT JSON_EXISTS(doc, '$?(@."s" starts with $p)');

SELECT JSON_EXISTS(doc, '$ ? (@ starts with "a")');
= SELECT JSON_EXISTS(doc, '$?(@ starts with "a")');
! SELECT JSON_EXISTS(doc, '$ ? (@ starts with $a)');

SELECT JSON_EXISTS(doc, '$[last - 1 to last, 0]');
= SELECT JSON_EXISTS(doc, '$[(last - 1) to last, 0]');
! SELECT JSON_EXISTS(doc, '$[last - 1 to last]');
! SELECT JSON_EXISTS(doc, '$[0, last - 1 to last]');
! SELECT JSON_EXISTS(doc, '$[last - 1, last, 0]');

SELECT JSON_EXISTS(doc, '$[$ ? (@ == last)]');
= SELECT JSON_EXISTS(doc, '$[$?(@ == last)]');

SELECT JSON_EXISTS(doc, '$ ? (@ <> 5)');
= SELECT JSON_EXISTS(doc, '$?(@ != 5)');
! SELECT JSON_EXISTS(doc, '$ ? (@ == 5)');
! SELECT JSON_EXISTS(doc, '$ ? (@ <= 5)');

SELECT JSON_EXISTS(doc, '$x.a');
= SELECT JSON_EXISTS(doc, '$x."a"');

SELECT JSON_EXISTS(doc, '$ + 1.e5');
= SELECT JSON_EXISTS(doc, '($ + 1."e5")');

SELECT JSON_EXISTS(doc, '1.50e1');
= SELECT JSON_EXISTS(doc, '15');
! SELECT JSON_EXISTS(doc, '1.5');
! SELECT JSON_EXISTS(doc, '150');

SELECT JSON_EXISTS(doc, '(true)');
= SELECT JSON_EXISTS(doc, 'true');
! SELECT JSON_EXISTS(doc, 'false');
! SELECT JSON_EXISTS(doc, '"true"');

SELECT JSON_EXISTS(doc, '"\"\\\/\b\f\n\r\t\u00e9\uD83D\ude00"');
= SELECT JSON_EXISTS(doc, '"\u0022\u005c\u002f\u0008\u000c\u000a\u000d\u0009é😀"');

SELECT JSON_EXISTS(doc, '$."é\u0000"');
= SELECT JSON_EXISTS(doc, '$."\u00e9\u0000"');

SELECT JSON_EXISTS(doc, '$.bigint().boolean().decimal().integer().number().string()');
= SELECT JSON_EXISTS(doc, '$ . bigint ( ) . boolean() . decimal() . integer() . number() . string()');

SELECT JSON_EXISTS(doc, '$.bigint.boolean.decimal.integer.number.string');
= SELECT JSON_EXISTS(doc, '$."bigint"."boolean"."decimal"."integer"."number"."string"');

SELECT JSON_EXISTS(doc, 'strict $.string.string ( ) + $.number()');
= SELECT JSON_EXISTS(doc, 'strict ($."string".string() + $.number())');

SELECT JSON_EXISTS(doc, '-$[*].integer()');
= SELECT JSON_EXISTS(doc, '(-$[*].integer())');
! SELECT JSON_EXISTS(doc, '-$.integer()');
! SELECT JSON_EXISTS(doc, '(-$[*]).integer()');

SELECT JSON_EXISTS(doc, '$ ? (@.string() starts with "a")');
= SELECT JSON_EXISTS(doc, '$?(@.string() starts with "a")');
"##;
