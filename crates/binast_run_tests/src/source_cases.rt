//! Sources with the lines that refuse them, no line where they are accepted.

/// Sources that are not refused for an early error.
pub static REFUSED: &[(&str, &str)] = &[
    ("1.5;", "source: NumberForm at 0\n"),
    ("9007199254740992;", "source: NumberTooBig at 0\n"),
    ("(a + b) => 1", "source: Syntax at 3\n"),
    ("class A {}", "source: NotHere Class at 0\n"),
    ("x = /a/;", "source: NotHere Regex at 4\n"),
    ("a\n`b`", "source: NotHere TaggedTemplate at 2\n"),
    ("var [a] = b;", "source: NotHere BindingPattern at 4\n"),
    ("let x; var x;", "source: E2 at node 0 \"x\"\n"),
    ("[a] = b;", "source: E16 at node 4\n"),
    ("01;", "source: NumberForm at 0\n"),
    ("super.a", "source: NotHere Super at 0\n"),
    ("with (a) b", "source: NotHere With at 0\n"),
    ("import a", "source: NotHere Module at 0\n"),
    ("(function*(){})", "source: NotHere Generator at 9\n"),
    ("new.target", "source: NotHere NewTarget at 3\n"),
    (
        "if (a) function f(){}",
        "source: NotHere BareFunction at 7\n",
    ),
    ("#", "source: BadChar at 0\n"),
    ("\"a", "source: EndedString at 0\n"),
    ("`a", "source: EndedTemplate at 0\n"),
    ("/*", "source: EndedComment at 0\n"),
    ("\"\\08\"", "source: BadEscape at 1\n"),
    ("\"\\uD83D\"", "source: LoneSurrogate at 1\n"),
    ("a\\u0062", "source: EscapedName at 1\n"),
    ("1", ""),
    (" 1;\u{9}", ""),
    ("1;;", ""),
    ("let \u{2028} a, \u{2029} a", "source: E1 at node 0 \"a\"\n"),
];

/// Sources beside each early error of ECMA-262, a line each: those that have none, and those that have it, behind a tab.
pub static EARLY: &str = "\
let a; { let a; }
function f() {} function f() {}
for (let i, j;;) ;
switch (a) { case 1: let b; } let b;
var a, a;
let a, a;\tE1 at node 0 \"a\"
let a; const a = 1;\tE1 at node 0 \"a\"
{ function f() {} let f; }\tE1 at node 2 \"f\"
switch (a) { case 1: let b; default: let b; }\tE1 at node 2 \"b\"
for (let i, i;;) ;\tE1 at node 2 \"i\"
function f() { let a; let a; }\tE1 at node 4 \"a\"
({ get a() { let b, b } })\tE1 at node 6 \"b\"
let a; function f() { var a; }
var a; { let a; }
var a; var a; function a() {}
{ let a; (() => { var a; }); }
let x; var x;\tE2 at node 0 \"x\"
{ let a; { var a; } }\tE2 at node 2 \"a\"
let f; function f() {}\tE2 at node 0 \"f\"
function f() { const a = 1; for (var a in b) ; }\tE2 at node 4 \"a\"
{ function f() {} var f; }\tE2 at node 2 \"f\"
switch (a) { default: let b; { var b } }\tE2 at node 2 \"b\"
(function(a) { var a; })
(function(a) { { let a; } })
(a) => { var a }
({ set b(a) { { let a } } })
(function(a){ let a })\tE3 at node 5 \"a\"
(a) => { const a = 1 }\tE3 at node 4 \"a\"
({ set b(a) { let a } })\tE3 at node 6 \"a\"
(function(b, ...a) { let c, a, b; })\tE3 at node 5 \"a\"
({ m(a = 1) { let a } })\tE3 at node 6 \"a\"
(function(a, a) {})
function f(a, b, a) {}
(a, b) => 1
({ m(a, b) {} })
(a, a) => 1\tE4 at node 3 \"a\"
({ m(a, a) {} })\tE4 at node 6 \"a\"
\"use strict\"; (function(a, a) {})\tE4 at node 6 \"a\"
(function(a, a) { \"use strict\" })\tE4 at node 6 \"a\"
(function(a, a = 1) {})\tE4 at node 5 \"a\"
function f(a, ...a) {}\tE4 at node 4 \"a\"
(a, b, b, a) => { }\tE4 at node 4 \"b\"
(function(a) { \"use strict\" })
\"use strict\"; (function(a = 1) {})
(function(a = 1) { \"use\\x20strict\" })
(function(a = 1) { (\"use strict\") })
(function(a = 1){ \"use strict\" })\tE5 at node 6
(...a) => { \"x\"; \"use strict\" }\tE5 at node 6
({ m(a, b = 2) { 'use strict' } })\tE5 at node 7
({ set m(a = 1) { \"use strict\" } })\tE5 at node 7
eval = 1;
\"use strict\"; eval(1); arguments[0] = 1;
function f(eval) { arguments++ }
\"use strict\"; eval.a = 1;
\"use strict\"; eval = 1;\tE6 at node 5 \"eval\"
\"use strict\"; arguments++;\tE6 at node 5 \"arguments\"
\"use strict\"; var eval;\tE6 at node 5 \"eval\"
\"use strict\"; for (arguments in b) ;\tE6 at node 5 \"arguments\"
function eval() { \"use strict\" }\tE6 at node 3 \"eval\"
\"use strict\"; (arguments) => 1\tE6 at node 7 \"arguments\"
\"use strict\"; try {} catch (eval) {}\tE6 at node 8 \"eval\"
function f() { \"use strict\"; (function() { --eval }) }\tE6 at node 18 \"eval\"
delete x;
\"use strict\"; delete x.y;
\"use strict\"; delete x[y]; delete (x, y);
\"use strict\"; delete x;\tE7 at node 4 \"x\"
\"use strict\"; delete (x);\tE7 at node 4 \"x\"
function f() { \"use strict\"; delete this, delete f }\tE7 at node 13 \"f\"
\"use strict\"; () => delete a\tE7 at node 7 \"a\"
static = public;
var interface; package: ;
\"use strict\"; a.static; ({ public: 1 });
(function private(protected) {})
\"use strict\"; static;\tE8 at node 4 \"static\"
\"use strict\"; var interface;\tE8 at node 5 \"interface\"
\"use strict\"; package: ;\tE8 at node 3 \"package\"
(function private() { \"use strict\" })\tE8 at node 4 \"private\"
\"use strict\"; for (;;) { break protected }\tE8 at node 7 \"protected\"
\"use strict\"; (implements) => 1\tE8 at node 7 \"implements\"
\"use strict\"; ({ public })\tE8 at node 6 \"public\"
const c = 1;
for (const c of d) ;
for (const c in d) ;
let c; var d;
const c;\tE9 at node 3 \"c\"
for (const c;;) ;\tE9 at node 5 \"c\"
const a = 1, b;\tE9 at node 6 \"b\"
{ const c }\tE9 at node 5 \"c\"
function f() { return 1; }
(() => { return })
({ get a() { return } })
return 1;\tE10 at node 2
{ return }\tE10 at node 4
if (a) return;\tE10 at node 4
a: return\tE10 at node 3
(function() {}); return\tE10 at node 9
for (;;) break;
while (1) { if (a) continue; }
switch (a) { case 1: break }
do { switch (a) { default: continue } } while (0)
break;\tE11 at node 2
continue;\tE11 at node 2
switch (a) { case 1: continue }\tE11 at node 7
for (;;) { (function() { break }) }\tE11 at node 13
a: { break; }\tE11 at node 5
while (() => { continue }) ;\tE11 at node 8
a: { break a; }
a: b: while (1) continue a;
a: for (;;) { b: for (;;) { continue a } }
a: switch (b) { default: break a }
break a;\tE12 at node 2 \"a\"
a: { (function() { break a }) }\tE12 at node 12 \"a\"
a: { while (1) continue a; }\tE12 at node 7 \"a\"
a: ; while (1) break a;\tE12 at node 6 \"a\"
while (1) continue b;\tE12 at node 4 \"b\"
a: for (;;) (() => { continue a })\tE12 at node 11 \"a\"
a: ; a: ;
a: { b: ; } b: ;
a: (function() { a: ; });
a: a: ;\tE13 at node 3 \"a\"
a: { b: { a: ; } }\tE13 at node 8 \"a\"
a: while (1) { if (b) a: ; }\tE13 at node 9 \"a\"
a: b: a: for (;;) ;\tE13 at node 4 \"a\"
try {} catch (e) { (function() { var e }) }
try {} catch (e) { { let e } }
try {} catch (e) { e = 1 } finally { var e }
try {} catch (e) { let e }\tE14 at node 5 \"e\"
try {} catch (e) { var e }\tE14 at node 5 \"e\"
try {} catch (e) { function e() {} }\tE14 at node 5 \"e\"
try {} catch (e) { for (var e of a) ; } finally {}\tE14 at node 5 \"e\"
try {} catch (e) { { { var b, e } } }\tE14 at node 5 \"e\"
for (let i;;) { let i }
for (var i;;) { var i }
for (let i of a) { (function() { var i }) }
for (const i = 0; i < 1;) { i: ; }
for (let i;;) { var i }\tE15 at node 2 \"i\"
for (const i of a) var i;\tE15 at node 2 \"i\"
for (let i in a) { for (var i in b) ; }\tE15 at node 2 \"i\"
for (let a, b;;) { { var c, b } }\tE15 at node 2 \"b\"
a = 1;
a.b = 1; a[b] += 2;
for (a.b of c) ;
(a) = 1; ++a[0];
for (a() .b in c) ;
[a] = b;\tE16 at node 4
a() = 1;\tE16 at node 4
1 = a;\tE16 at node 4
++1;\tE16 at node 4
(a = b) = c;\tE16 at node 4
for (f() in b) ;\tE16 at node 4
for ({} of b) ;\tE16 at node 4
a + b += c\tE16 at node 4
this--\tE16 at node 4
";

/// Bytes that are no UTF-8, with the length of their longest front that is.
pub static NO_TEXTS: &[(&[u8], u32)] = &[
    (b"\xFF", 0),
    (b"a;\xE2\x82", 2),
    (b"\"\xC3\xBF\xC0\"", 3),
    (b"\xED\xA0\x80", 0),
    (b"// \xF4\x90\x80\x80", 3),
];

/// A script of many statements, and its file.
pub static CART: (&str, &[u8]) = (
    "var Cart = (function () {\n  \"use strict\";\n  const rates = { std: 20, low: 5, [`none`]: 0 };\n  let items = [], total = 0;\n  function add(name, price, ...tags) {\n    if (price < 0 || typeof price !== \"number\") throw new TypeError(`bad: ${price}`);\n    items.push({ name, price, tags, get tax() { return this.price * rates.std / 100; } });\n    total += price;\n    return items.length\n  }\n  const sum = (list, from = 0) => list.reduce((a, b) => a + b.price, from);\n  function report() {\n    var out = \"\";\n    outer: for (const it of items) {\n      for (let i = 0; i < it.tags.length; i++) {\n        switch (it.tags[i]) {\n          case \"hidden\": continue outer;\n          case \"last\": break outer;\n          default: out += it.tags[i] + \" \";\n        }\n      }\n      out += it.name + \": \" + it.price + \"\\n\"\n    }\n    try { JSON.parse(out) } catch (e) { out += \"?\" } finally { total = sum(items); }\n    do total -= 1; while (total > 1000000)\n    return out;\n  }\n  return { add, report, set limit(v) { total = v > total ? total : v }, size() { return items.length } };\n})();\nfor (var key in Cart) if (Cart.hasOwnProperty(key)) delete Cart[key]; else void 0;\n",
    b"BINJS\x02[GRAMMAR]identity;q\x12\x86\x0CScript2AssertedScriptGlobalScope(AssertedDeclaredName\x1CVarDeclaration$VariableDeclarator\"BindingIdentifier\x1CCallExpression.EagerFunctionExpression\n_Null.AssertedBoundNamesScope\x12Directive FunctionContents,AssertedParameterScope FormalParameters AssertedVarScope$LexicalDeclaration ObjectExpression\x18DataProperty&LiteralPropertyName0LiteralNumericExpression(ComputedPropertyName$TemplateExpression\x1EArrayExpression0EagerFunctionDeclaration>AssertedPositionalParameterName2AssertedRestParameterName\x16IfStatement BinaryExpression(IdentifierExpression\x1EUnaryExpression.LiteralStringExpression\x1CThrowStatement\x1ANewExpression\x18TemplatePart&ExpressionStatement,StaticMemberExpression\"ShorthandProperty\x16EagerGetter\x1CGetterContents\x1EReturnStatement\x1CThisExpression8CompoundAssignmentExpressionDEagerArrowExpressionWithExpression,BindingWithInitializer\"LabelledStatement\x1CForOfStatement$AssertedBlockScope\x1CForInOfBinding\nBlock\x18ForStatement UpdateExpression4SwitchStatementWithDefault0ComputedMemberExpression\x14SwitchCase\"ContinueStatement\x1CBreakStatement\x1ASwitchDefault&TryFinallyStatement\x16CatchClause\"AssertedBoundName(AssignmentExpression DoWhileStatement\x16EagerSetter\x1CSetterContents*ConditionalExpression\x16EagerMethod\x1CForInStatement[STRINGS]identity;q\x04|\x08Cart\x06var\x06key\x14use strict\nrates\x1Aconst lexical\nitems\"non-const lexical\ntotal\x06add\x06sum\x0Creport\nconst\x06std\x06low\x08none\x06let\x08name\nprice\x08tags\x04||\x02<\x06!==\x0Ctypeof\x0Cnumber\x12TypeError\nbad: \0\x08push\x06tax\x02/\x02*\x04+=\x0Clength\x08list\x08from\x0Creduce\x02a\x02b\x02+\x06out\nouter\x04it\x02i\x04++\x0Chidden\x08last\x02 \x04: \x02\n\x08JSON\nparse\x02e\x02?\x04-=\x02>\nlimit\x02v\x08size\x1ChasOwnProperty\x0Cdelete\x08void[TREE]identity;E\n\0\0\x02\x04\x04\0\x02\0\x04\x04\x02\0\0\x04\x06\x02\x08\n\0\x0C\x0E\x10\x12\0\0\x02\x14\x06\x16\x18\0\0\x01\x1A\0\x10\x1C\x0C\x04\x08\n\x01\x04\x0C\x0E\x01\x04\x10\x0E\x01\x04\x12\x02\0\x04\x14\n\x01\x04\x16\x02\0\0\x0C\x1E\x18\x02\x08\n\x08 \x06\"$\x1A&@4\0\0\0\0\0\0\"$\x1C&@\x14\0\0\0\0\0\0\"(*\x1E\0&\0\0\0\0\0\0\0\0\x1E \x04\x08\n\x0C,\0\x08\n\x10&\0\0\0\0\0\0\0\0.\n\x12\0\x16\x18\x060\0\"\00\x02$\02&\0\0\0\x1A\x04\n\"\n$\n&\x1C\0\0\x0846(6*8$&\0\0\0\0\0\0\0\06,:.8$<0>@82\x02*4\x02B8$6\x10D\x0CF8\x0C8\x02 \x08H8\"H8$H8&J$:\0L\x1C\0\0\x02N6<6>FP$F8\x08\x1A&@Y\0\0\0\0\0\0DR@8\x108$NF8\x0CB\x1E\x18\x02\x08\n\x14T\x18\x040\0D\00\x02F\0\0\0\x1A\x04\nDV\nF&\0\0\0\0\0\0\0\0\x10\x0CF8DH\x04T\x18\x040\0J\00\x02L\0\0\x01\x1A\x04\nJ\nL\x106N8JF8L$8F.\n\x16\0\x16\x18\0\0\x01\x1A\0\x10\x1C\x02\x04P\x02\0\0\n\x06\x02\x08\nP<6XRZ\\\x02\x04T\n\0\0^\x18\nT8\x0C`\\\0\0\x04b\\\x02\x04V\x0E\0\0\x1E \x02\x08\nV&\0\0\0\0\0\0\0\06*8VFF8T&Bd\0X8V`\\\0\0\x02fhF8T&8V\\\0\0\x04j<Z\x02lRj<\\\x02nRp\x02DR@8P6NhF8T&8V<^\0DR@8P6N6N6NF8T\"<`F8T$<br`\\\0\0\x02D\x0CF8df\x028Pt\x12\x02vh\0\0\nh`\\\0\0\x02DR@8P<j`\\\0\0\x02Dx8\x10\x0C8\x14\x028\x0CzDRl8\x10&?\xF0\0\0\0\0\0\06n8\x10&A.\x84\x80\0\0\0\0N8PN \x08H8\x12H8\x16|$p\0~\x18\x020\0r\0\0\x01\nr\x1C\0\0\x02Dx8\x10\x806n8r8\x108\x108r\x82$t\0\x16\x18\0\0\x01\x1A\0\x10\x1C\0\0\x02NF8\x0CB\0\x84\\\0\0^\x02\n\x048\04\x0CF8\0v\x028\x04D:xh8\08\x04D:z&\0\0\0\0\0\0\0\0",
);
