//! Sources with their trees, or why they have none.

/// Expressions.
pub static EXPRESSIONS: [(&str, &str); 80] = [
    (
        "[,,a,,b,,]",
        "Script([] ~ [ExpressionStatement(ArrayExpression([- - IdentifierExpression('a') - IdentifierExpression('b') -]))])",
    ),
    (
        "[...a, b]",
        "Script([] ~ [ExpressionStatement(ArrayExpression([SpreadElement(IdentifierExpression('a')) IdentifierExpression('b')]))])",
    ),
    (
        "({})",
        "Script([] ~ [ExpressionStatement(ObjectExpression([]))])",
    ),
    (
        "x = y = z",
        "Script([] ~ [ExpressionStatement(AssignmentExpression(IdentifierExpression('x') AssignmentExpression(IdentifierExpression('y') IdentifierExpression('z'))))])",
    ),
    (
        "\"use strict\"; a",
        "Script([Directive('use strict')] ~ [ExpressionStatement(IdentifierExpression('a'))])",
    ),
    (
        "\"a\"\n\"b\"",
        "Script([Directive('a') Directive('b')] ~ [])",
    ),
    (
        "typeof a.b()",
        "Script([] ~ [ExpressionStatement(UnaryExpression(#4 CallExpression(StaticMemberExpression(IdentifierExpression('a') 'b') [])))])",
    ),
    (
        "delete a[b]",
        "Script([] ~ [ExpressionStatement(UnaryExpression(#6 ComputedMemberExpression(IdentifierExpression('a') IdentifierExpression('b'))))])",
    ),
    (
        "void 0",
        "Script([] ~ [ExpressionStatement(UnaryExpression(#5 LiteralNumericExpression(0)))])",
    ),
    (
        "a in b",
        "Script([] ~ [ExpressionStatement(BinaryExpression(#14 IdentifierExpression('a') IdentifierExpression('b')))])",
    ),
    (
        "(a) = b",
        "Script([] ~ [ExpressionStatement(AssignmentExpression(IdentifierExpression('a') IdentifierExpression('b')))])",
    ),
    (
        "a() = b",
        "Script([] ~ [ExpressionStatement(AssignmentExpression(CallExpression(IdentifierExpression('a') []) IdentifierExpression('b')))])",
    ),
    (
        "1 = a",
        "Script([] ~ [ExpressionStatement(AssignmentExpression(LiteralNumericExpression(1) IdentifierExpression('a')))])",
    ),
    (
        "1;",
        "Script([] ~ [ExpressionStatement(LiteralNumericExpression(1))])",
    ),
    (
        "\"a\"; \"b\"\n'c'\nd; \"e\"",
        "Script([Directive('a') Directive('b') Directive('c')] ~ [ExpressionStatement(IdentifierExpression('d')) ExpressionStatement(LiteralStringExpression('e'))])",
    ),
    (
        "(\"use strict\"); a",
        "Script([] ~ [ExpressionStatement(LiteralStringExpression('use strict')) ExpressionStatement(IdentifierExpression('a'))])",
    ),
    (
        "\"a\" + b",
        "Script([] ~ [ExpressionStatement(BinaryExpression(#18 LiteralStringExpression('a') IdentifierExpression('b')))])",
    ),
    (
        "\"a\", b",
        "Script([] ~ [ExpressionStatement(SequenceExpression(LiteralStringExpression('a') [IdentifierExpression('b')]))])",
    ),
    (
        "\"a\".b",
        "Script([] ~ [ExpressionStatement(StaticMemberExpression(LiteralStringExpression('a') 'b'))])",
    ),
    (
        "a; \"use strict\"",
        "Script([] ~ [ExpressionStatement(IdentifierExpression('a')) ExpressionStatement(LiteralStringExpression('use strict'))])",
    ),
    (
        "[,,]",
        "Script([] ~ [ExpressionStatement(ArrayExpression([- -]))])",
    ),
    (
        "[a,,b]",
        "Script([] ~ [ExpressionStatement(ArrayExpression([IdentifierExpression('a') - IdentifierExpression('b')]))])",
    ),
    (
        "[,a]",
        "Script([] ~ [ExpressionStatement(ArrayExpression([- IdentifierExpression('a')]))])",
    ),
    (
        "[...a, ...b]",
        "Script([] ~ [ExpressionStatement(ArrayExpression([SpreadElement(IdentifierExpression('a')) SpreadElement(IdentifierExpression('b'))]))])",
    ),
    (
        "(a, b), c",
        "Script([] ~ [ExpressionStatement(SequenceExpression(SequenceExpression(IdentifierExpression('a') [IdentifierExpression('b')]) [IdentifierExpression('c')]))])",
    ),
    (
        "f((a, b))",
        "Script([] ~ [ExpressionStatement(CallExpression(IdentifierExpression('f') [SequenceExpression(IdentifierExpression('a') [IdentifierExpression('b')])]))])",
    ),
    (
        "[(a, b)]",
        "Script([] ~ [ExpressionStatement(ArrayExpression([SequenceExpression(IdentifierExpression('a') [IdentifierExpression('b')])]))])",
    ),
    (
        "a + b + c",
        "Script([] ~ [ExpressionStatement(BinaryExpression(#18 BinaryExpression(#18 IdentifierExpression('a') IdentifierExpression('b')) IdentifierExpression('c')))])",
    ),
    (
        "a = b = c",
        "Script([] ~ [ExpressionStatement(AssignmentExpression(IdentifierExpression('a') AssignmentExpression(IdentifierExpression('b') IdentifierExpression('c'))))])",
    ),
    (
        "x++",
        "Script([] ~ [ExpressionStatement(UpdateExpression(F #0 IdentifierExpression('x')))])",
    ),
    (
        "++x",
        "Script([] ~ [ExpressionStatement(UpdateExpression(T #0 IdentifierExpression('x')))])",
    ),
    (
        "x--",
        "Script([] ~ [ExpressionStatement(UpdateExpression(F #1 IdentifierExpression('x')))])",
    ),
    (
        "--x",
        "Script([] ~ [ExpressionStatement(UpdateExpression(T #1 IdentifierExpression('x')))])",
    ),
    (
        "-x",
        "Script([] ~ [ExpressionStatement(UnaryExpression(#1 IdentifierExpression('x')))])",
    ),
    (
        "- -x",
        "Script([] ~ [ExpressionStatement(UnaryExpression(#1 UnaryExpression(#1 IdentifierExpression('x'))))])",
    ),
    (
        "+ +x",
        "Script([] ~ [ExpressionStatement(UnaryExpression(#0 UnaryExpression(#0 IdentifierExpression('x'))))])",
    ),
    (
        "typeof void delete x",
        "Script([] ~ [ExpressionStatement(UnaryExpression(#4 UnaryExpression(#5 UnaryExpression(#6 IdentifierExpression('x')))))])",
    ),
    (
        "!~x",
        "Script([] ~ [ExpressionStatement(UnaryExpression(#3 UnaryExpression(#2 IdentifierExpression('x'))))])",
    ),
    (
        "a.b.c",
        "Script([] ~ [ExpressionStatement(StaticMemberExpression(StaticMemberExpression(IdentifierExpression('a') 'b') 'c'))])",
    ),
    (
        "a[b][c]",
        "Script([] ~ [ExpressionStatement(ComputedMemberExpression(ComputedMemberExpression(IdentifierExpression('a') IdentifierExpression('b')) IdentifierExpression('c')))])",
    ),
    (
        "new a.b(c)",
        "Script([] ~ [ExpressionStatement(NewExpression(StaticMemberExpression(IdentifierExpression('a') 'b') [IdentifierExpression('c')]))])",
    ),
    (
        "new (a())()",
        "Script([] ~ [ExpressionStatement(NewExpression(CallExpression(IdentifierExpression('a') []) []))])",
    ),
    (
        "(a)",
        "Script([] ~ [ExpressionStatement(IdentifierExpression('a'))])",
    ),
    (
        "((a))",
        "Script([] ~ [ExpressionStatement(IdentifierExpression('a'))])",
    ),
    (
        "() => a",
        "Script([] ~ [ExpressionStatement(EagerArrowExpressionWithExpression(~ FormalParameters([] -) IdentifierExpression('a')))])",
    ),
    (
        "a => ({})",
        "Script([] ~ [ExpressionStatement(EagerArrowExpressionWithExpression(~ FormalParameters([BindingIdentifier('a')] -) ObjectExpression([])))])",
    ),
    (
        "({ a, })",
        "Script([] ~ [ExpressionStatement(ObjectExpression([ShorthandProperty(IdentifierExpression('a'))]))])",
    ),
    (
        "``",
        "Script([] ~ [ExpressionStatement(TemplateExpression('' []))])",
    ),
    (
        "`${a}${b}`",
        "Script([] ~ [ExpressionStatement(TemplateExpression('' [TemplatePart(IdentifierExpression('a') '') TemplatePart(IdentifierExpression('b') '')]))])",
    ),
    (
        "`\n\\n`",
        "Script([] ~ [ExpressionStatement(TemplateExpression('\n\\n' []))])",
    ),
    ("\"\\n\\u0041\"", "Script([Directive('\\n\\u0041')] ~ [])"),
    ("\"it's\"", "Script([Directive('it's')] ~ [])"),
    (
        "0x1F",
        "Script([] ~ [ExpressionStatement(LiteralNumericExpression(31))])",
    ),
    (
        "9007199254740991",
        "Script([] ~ [ExpressionStatement(LiteralNumericExpression(9007199254740991))])",
    ),
    (
        "f(a)(b)",
        "Script([] ~ [ExpressionStatement(CallExpression(CallExpression(IdentifierExpression('f') [IdentifierExpression('a')]) [IdentifierExpression('b')]))])",
    ),
    (
        "(() => {})()",
        "Script([] ~ [ExpressionStatement(CallExpression(EagerArrowExpressionWithFunctionBody([] FunctionContents(~ FormalParameters([] -) ~ [])) []))])",
    ),
    (
        "\"a\"\n+ b",
        "Script([] ~ [ExpressionStatement(BinaryExpression(#18 LiteralStringExpression('a') IdentifierExpression('b')))])",
    ),
    (
        "`a` + `b`",
        "Script([] ~ [ExpressionStatement(BinaryExpression(#18 TemplateExpression('a' []) TemplateExpression('b' [])))])",
    ),
    (
        "get",
        "Script([] ~ [ExpressionStatement(IdentifierExpression('get'))])",
    ),
    (
        "set = get",
        "Script([] ~ [ExpressionStatement(AssignmentExpression(IdentifierExpression('set') IdentifierExpression('get')))])",
    ),
    (
        "a[b, c]",
        "Script([] ~ [ExpressionStatement(ComputedMemberExpression(IdentifierExpression('a') SequenceExpression(IdentifierExpression('b') [IdentifierExpression('c')])))])",
    ),
    (
        "[a, b][c]",
        "Script([] ~ [ExpressionStatement(ComputedMemberExpression(ArrayExpression([IdentifierExpression('a') IdentifierExpression('b')]) IdentifierExpression('c')))])",
    ),
    (
        "- a.b",
        "Script([] ~ [ExpressionStatement(UnaryExpression(#1 StaticMemberExpression(IdentifierExpression('a') 'b')))])",
    ),
    (
        "-(a + b)",
        "Script([] ~ [ExpressionStatement(UnaryExpression(#1 BinaryExpression(#18 IdentifierExpression('a') IdentifierExpression('b'))))])",
    ),
    (
        "(a = b) + c",
        "Script([] ~ [ExpressionStatement(BinaryExpression(#18 AssignmentExpression(IdentifierExpression('a') IdentifierExpression('b')) IdentifierExpression('c')))])",
    ),
    (
        "new (a.b().c)",
        "Script([] ~ [ExpressionStatement(NewExpression(StaticMemberExpression(CallExpression(StaticMemberExpression(IdentifierExpression('a') 'b') []) 'c') []))])",
    ),
    (
        "a.b++",
        "Script([] ~ [ExpressionStatement(UpdateExpression(F #0 StaticMemberExpression(IdentifierExpression('a') 'b')))])",
    ),
    (
        "--a[b]",
        "Script([] ~ [ExpressionStatement(UpdateExpression(T #1 ComputedMemberExpression(IdentifierExpression('a') IdentifierExpression('b'))))])",
    ),
    (
        "delete a.b",
        "Script([] ~ [ExpressionStatement(UnaryExpression(#6 StaticMemberExpression(IdentifierExpression('a') 'b')))])",
    ),
    (
        "typeof a == b",
        "Script([] ~ [ExpressionStatement(BinaryExpression(#5 UnaryExpression(#4 IdentifierExpression('a')) IdentifierExpression('b')))])",
    ),
    (
        "a * (b + c)",
        "Script([] ~ [ExpressionStatement(BinaryExpression(#20 IdentifierExpression('a') BinaryExpression(#18 IdentifierExpression('b') IdentifierExpression('c'))))])",
    ),
    (
        "(a + b) * c",
        "Script([] ~ [ExpressionStatement(BinaryExpression(#20 BinaryExpression(#18 IdentifierExpression('a') IdentifierExpression('b')) IdentifierExpression('c')))])",
    ),
    (
        "a && (b || c)",
        "Script([] ~ [ExpressionStatement(BinaryExpression(#1 IdentifierExpression('a') BinaryExpression(#0 IdentifierExpression('b') IdentifierExpression('c'))))])",
    ),
    ("\"\\u{1F600}\"", "Script([Directive('\\u{1F600}')] ~ [])"),
    ("'\\x41\\\n'", "Script([Directive('\\x41\\\n')] ~ [])"),
    (
        "1 = 2",
        "Script([] ~ [ExpressionStatement(AssignmentExpression(LiteralNumericExpression(1) LiteralNumericExpression(2)))])",
    ),
    (
        "`${`${a}`}`",
        "Script([] ~ [ExpressionStatement(TemplateExpression('' [TemplatePart(TemplateExpression('' [TemplatePart(IdentifierExpression('a') '')]) '')]))])",
    ),
    (
        "\"use\\x20strict\"; a",
        "Script([Directive('use\\x20strict')] ~ [ExpressionStatement(IdentifierExpression('a'))])",
    ),
    ("'a\"b'", "Script([Directive('a\"b')] ~ [])"),
    (
        "a = b\nc",
        "Script([] ~ [ExpressionStatement(AssignmentExpression(IdentifierExpression('a') IdentifierExpression('b'))) ExpressionStatement(IdentifierExpression('c'))])",
    ),
];

/// Statements, functions, and properties.
pub static STATEMENTS: [(&str, &str); 44] = [
    (
        "function f() { a }",
        "Script([] ~ [EagerFunctionDeclaration(BindingIdentifier('f') [] FunctionContents(~ FormalParameters([] -) ~ [ExpressionStatement(IdentifierExpression('a'))]))])",
    ),
    (
        "switch (a) { case 1: b }",
        "Script([] ~ [SwitchStatement(IdentifierExpression('a') ~ [SwitchCase(LiteralNumericExpression(1) [ExpressionStatement(IdentifierExpression('b'))])])])",
    ),
    (";;", "Script([] ~ [EmptyStatement() EmptyStatement()])"),
    ("{};", "Script([] ~ [Block(~ []) EmptyStatement()])"),
    (
        "a: b",
        "Script([] ~ [LabelledStatement('a' ExpressionStatement(IdentifierExpression('b')))])",
    ),
    (
        "a: b: c;",
        "Script([] ~ [LabelledStatement('a' LabelledStatement('b' ExpressionStatement(IdentifierExpression('c'))))])",
    ),
    (
        "a: b",
        "Script([] ~ [LabelledStatement('a' ExpressionStatement(IdentifierExpression('b')))])",
    ),
    (
        "a: b: c",
        "Script([] ~ [LabelledStatement('a' LabelledStatement('b' ExpressionStatement(IdentifierExpression('c'))))])",
    ),
    (
        "of: get: set: 1",
        "Script([] ~ [LabelledStatement('of' LabelledStatement('get' LabelledStatement('set' ExpressionStatement(LiteralNumericExpression(1)))))])",
    ),
    (
        "a: { }",
        "Script([] ~ [LabelledStatement('a' Block(~ []))])",
    ),
    (
        "a: ;",
        "Script([] ~ [LabelledStatement('a' EmptyStatement())])",
    ),
    (
        "a: for (;;) continue a",
        "Script([] ~ [LabelledStatement('a' ForStatement(~ - - - ContinueStatement('a')))])",
    ),
    (
        "a\nb: c",
        "Script([] ~ [ExpressionStatement(IdentifierExpression('a')) LabelledStatement('b' ExpressionStatement(IdentifierExpression('c')))])",
    ),
    (
        "{ function f() {} }",
        "Script([] ~ [Block(~ [EagerFunctionDeclaration(BindingIdentifier('f') [] FunctionContents(~ FormalParameters([] -) ~ []))])])",
    ),
    (
        "({ class: 1 })",
        "Script([] ~ [ExpressionStatement(ObjectExpression([DataProperty(LiteralPropertyName('class') LiteralNumericExpression(1))]))])",
    ),
    (
        "for (a in b) c",
        "Script([] ~ [ForInStatement(~ IdentifierExpression('a') IdentifierExpression('b') ExpressionStatement(IdentifierExpression('c')))])",
    ),
    (
        "for (a of b) c",
        "Script([] ~ [ForOfStatement(~ IdentifierExpression('a') IdentifierExpression('b') ExpressionStatement(IdentifierExpression('c')))])",
    ),
    (
        "for (let a of b) c",
        "Script([] ~ [ForOfStatement(~ ForInOfBinding(#1 BindingIdentifier('a')) IdentifierExpression('b') ExpressionStatement(IdentifierExpression('c')))])",
    ),
    (
        "for (const a in b) c",
        "Script([] ~ [ForInStatement(~ ForInOfBinding(#2 BindingIdentifier('a')) IdentifierExpression('b') ExpressionStatement(IdentifierExpression('c')))])",
    ),
    (
        "for (a, b;;) c",
        "Script([] ~ [ForStatement(~ SequenceExpression(IdentifierExpression('a') [IdentifierExpression('b')]) - - ExpressionStatement(IdentifierExpression('c')))])",
    ),
    (
        "for (a < b;;) c",
        "Script([] ~ [ForStatement(~ BinaryExpression(#9 IdentifierExpression('a') IdentifierExpression('b')) - - ExpressionStatement(IdentifierExpression('c')))])",
    ),
    (
        "for (a instanceof b;;) c",
        "Script([] ~ [ForStatement(~ BinaryExpression(#13 IdentifierExpression('a') IdentifierExpression('b')) - - ExpressionStatement(IdentifierExpression('c')))])",
    ),
    (
        "for (of of of) of",
        "Script([] ~ [ForOfStatement(~ IdentifierExpression('of') IdentifierExpression('of') ExpressionStatement(IdentifierExpression('of')))])",
    ),
    (
        "for (var of of of) of",
        "Script([] ~ [ForOfStatement(~ ForInOfBinding(#0 BindingIdentifier('of')) IdentifierExpression('of') ExpressionStatement(IdentifierExpression('of')))])",
    ),
    (
        "for (var of in of) of",
        "Script([] ~ [ForInStatement(~ ForInOfBinding(#0 BindingIdentifier('of')) IdentifierExpression('of') ExpressionStatement(IdentifierExpression('of')))])",
    ),
    (
        "for (of in of) of",
        "Script([] ~ [ForInStatement(~ IdentifierExpression('of') IdentifierExpression('of') ExpressionStatement(IdentifierExpression('of')))])",
    ),
    (
        "for (of;;) of",
        "Script([] ~ [ForStatement(~ IdentifierExpression('of') - - ExpressionStatement(IdentifierExpression('of')))])",
    ),
    (
        "for (var of;;) of",
        "Script([] ~ [ForStatement(~ VarDeclaration([VariableDeclarator(BindingIdentifier('of') -)]) - - ExpressionStatement(IdentifierExpression('of')))])",
    ),
    (
        "for (a;b;c) d",
        "Script([] ~ [ForStatement(~ IdentifierExpression('a') IdentifierExpression('b') IdentifierExpression('c') ExpressionStatement(IdentifierExpression('d')))])",
    ),
    (
        "for (-a in b) c",
        "Script([] ~ [ForInStatement(~ UnaryExpression(#1 IdentifierExpression('a')) IdentifierExpression('b') ExpressionStatement(IdentifierExpression('c')))])",
    ),
    (
        "for (a.b of c) d",
        "Script([] ~ [ForOfStatement(~ StaticMemberExpression(IdentifierExpression('a') 'b') IdentifierExpression('c') ExpressionStatement(IdentifierExpression('d')))])",
    ),
    (
        "for (f() in g) h",
        "Script([] ~ [ForInStatement(~ CallExpression(IdentifierExpression('f') []) IdentifierExpression('g') ExpressionStatement(IdentifierExpression('h')))])",
    ),
    (
        "for (const a;;) b",
        "Script([] ~ [ForStatement(~ LexicalDeclaration(#1 [VariableDeclarator(BindingIdentifier('a') -)]) - - ExpressionStatement(IdentifierExpression('b')))])",
    ),
    (
        "for (a;;) { }",
        "Script([] ~ [ForStatement(~ IdentifierExpression('a') - - Block(~ []))])",
    ),
    (
        "a.if",
        "Script([] ~ [ExpressionStatement(StaticMemberExpression(IdentifierExpression('a') 'if'))])",
    ),
    (
        "({ if: 1 })",
        "Script([] ~ [ExpressionStatement(ObjectExpression([DataProperty(LiteralPropertyName('if') LiteralNumericExpression(1))]))])",
    ),
    (
        "function of(get, set) {}",
        "Script([] ~ [EagerFunctionDeclaration(BindingIdentifier('of') [] FunctionContents(~ FormalParameters([BindingIdentifier('get') BindingIdentifier('set')] -) ~ []))])",
    ),
    ("break of", "Script([] ~ [BreakStatement('of')])"),
    (
        "of: 1",
        "Script([] ~ [LabelledStatement('of' ExpressionStatement(LiteralNumericExpression(1)))])",
    ),
    (
        "({ new: 1 }).new",
        "Script([] ~ [ExpressionStatement(StaticMemberExpression(ObjectExpression([DataProperty(LiteralPropertyName('new') LiteralNumericExpression(1))]) 'new'))])",
    ),
    (
        "({ __proto__: a })",
        "Script([] ~ [ExpressionStatement(ObjectExpression([DataProperty(LiteralPropertyName('__proto__') IdentifierExpression('a'))]))])",
    ),
    (
        "({a: 1}).b",
        "Script([] ~ [ExpressionStatement(StaticMemberExpression(ObjectExpression([DataProperty(LiteralPropertyName('a') LiteralNumericExpression(1))]) 'b'))])",
    ),
    (
        "function f() {}",
        "Script([] ~ [EagerFunctionDeclaration(BindingIdentifier('f') [] FunctionContents(~ FormalParameters([] -) ~ []))])",
    ),
    (
        "(function() {})",
        "Script([] ~ [ExpressionStatement(EagerFunctionExpression(- ~ [] FunctionContents(~ FormalParameters([] -) ~ [])))])",
    ),
];

/// More of these.
pub static MORE_STATEMENTS: [(&str, &str); 44] = [
    (
        "a = function() {}",
        "Script([] ~ [ExpressionStatement(AssignmentExpression(IdentifierExpression('a') EagerFunctionExpression(- ~ [] FunctionContents(~ FormalParameters([] -) ~ []))))])",
    ),
    ("{}", "Script([] ~ [Block(~ [])])"),
    (
        "{ a; b }",
        "Script([] ~ [Block(~ [ExpressionStatement(IdentifierExpression('a')) ExpressionStatement(IdentifierExpression('b'))])])",
    ),
    (
        "{ a: 1 }",
        "Script([] ~ [Block(~ [LabelledStatement('a' ExpressionStatement(LiteralNumericExpression(1)))])])",
    ),
    (
        "var a, b = 1",
        "Script([] ~ [VarDeclaration([VariableDeclarator(BindingIdentifier('a') -) VariableDeclarator(BindingIdentifier('b') LiteralNumericExpression(1))])])",
    ),
    (
        "const a",
        "Script([] ~ [LexicalDeclaration(#1 [VariableDeclarator(BindingIdentifier('a') -)])])",
    ),
    (
        "if (a) b",
        "Script([] ~ [IfStatement(IdentifierExpression('a') ExpressionStatement(IdentifierExpression('b')) -)])",
    ),
    (
        "while (a) b",
        "Script([] ~ [WhileStatement(IdentifierExpression('a') ExpressionStatement(IdentifierExpression('b')))])",
    ),
    (
        "do a; while (b)",
        "Script([] ~ [DoWhileStatement(ExpressionStatement(IdentifierExpression('a')) IdentifierExpression('b'))])",
    ),
    (
        "do { a } while (b) c",
        "Script([] ~ [DoWhileStatement(Block(~ [ExpressionStatement(IdentifierExpression('a'))]) IdentifierExpression('b')) ExpressionStatement(IdentifierExpression('c'))])",
    ),
    (
        "switch (a) {}",
        "Script([] ~ [SwitchStatement(IdentifierExpression('a') ~ [])])",
    ),
    (
        "try {} catch (a) {}",
        "Script([] ~ [TryCatchStatement(Block(~ []) CatchClause(~ BindingIdentifier('a') Block(~ [])))])",
    ),
    (
        "try {} finally {}",
        "Script([] ~ [TryFinallyStatement(Block(~ []) - Block(~ []))])",
    ),
    (
        "try {} catch (a) {} finally {}",
        "Script([] ~ [TryFinallyStatement(Block(~ []) CatchClause(~ BindingIdentifier('a') Block(~ [])) Block(~ []))])",
    ),
    (
        "debugger; a",
        "Script([] ~ [DebuggerStatement() ExpressionStatement(IdentifierExpression('a'))])",
    ),
    (
        "throw a, b",
        "Script([] ~ [ThrowStatement(SequenceExpression(IdentifierExpression('a') [IdentifierExpression('b')]))])",
    ),
    (
        "return a, b",
        "Script([] ~ [ReturnStatement(SequenceExpression(IdentifierExpression('a') [IdentifierExpression('b')]))])",
    ),
    (
        "{ \"use strict\" }",
        "Script([] ~ [Block(~ [ExpressionStatement(LiteralStringExpression('use strict'))])])",
    ),
    (
        "(function () { \"a\"; })",
        "Script([] ~ [ExpressionStatement(EagerFunctionExpression(- ~ [Directive('a')] FunctionContents(~ FormalParameters([] -) ~ [])))])",
    ),
    (
        "(function () {})",
        "Script([] ~ [ExpressionStatement(EagerFunctionExpression(- ~ [] FunctionContents(~ FormalParameters([] -) ~ [])))])",
    ),
    (
        "(function f(a) {})",
        "Script([] ~ [ExpressionStatement(EagerFunctionExpression(BindingIdentifier('f') ~ [] FunctionContents(~ FormalParameters([BindingIdentifier('a')] -) ~ [])))])",
    ),
    (
        "let a",
        "Script([] ~ [LexicalDeclaration(#0 [VariableDeclarator(BindingIdentifier('a') -)])])",
    ),
    (
        "const a = 1",
        "Script([] ~ [LexicalDeclaration(#1 [VariableDeclarator(BindingIdentifier('a') LiteralNumericExpression(1))])])",
    ),
    (
        "let a = b, c",
        "Script([] ~ [LexicalDeclaration(#0 [VariableDeclarator(BindingIdentifier('a') IdentifierExpression('b')) VariableDeclarator(BindingIdentifier('c') -)])])",
    ),
    (
        "for (;;) a",
        "Script([] ~ [ForStatement(~ - - - ExpressionStatement(IdentifierExpression('a')))])",
    ),
    (
        "for (a; b; c) d",
        "Script([] ~ [ForStatement(~ IdentifierExpression('a') IdentifierExpression('b') IdentifierExpression('c') ExpressionStatement(IdentifierExpression('d')))])",
    ),
    (
        "for (var a in b) c",
        "Script([] ~ [ForInStatement(~ ForInOfBinding(#0 BindingIdentifier('a')) IdentifierExpression('b') ExpressionStatement(IdentifierExpression('c')))])",
    ),
    (
        "do { } while (a);",
        "Script([] ~ [DoWhileStatement(Block(~ []) IdentifierExpression('a'))])",
    ),
    ("continue", "Script([] ~ [ContinueStatement(*)])"),
    (
        "l: while (a) { continue l; break l }",
        "Script([] ~ [LabelledStatement('l' WhileStatement(IdentifierExpression('a') Block(~ [ContinueStatement('l') BreakStatement('l')])))])",
    ),
    (
        "l: a",
        "Script([] ~ [LabelledStatement('l' ExpressionStatement(IdentifierExpression('a')))])",
    ),
    (
        "l: m: a",
        "Script([] ~ [LabelledStatement('l' LabelledStatement('m' ExpressionStatement(IdentifierExpression('a'))))])",
    ),
    (
        "switch (a) { default: }",
        "Script([] ~ [SwitchStatementWithDefault(IdentifierExpression('a') ~ [] SwitchDefault([]) [])])",
    ),
    (
        "debugger; ;",
        "Script([] ~ [DebuggerStatement() EmptyStatement()])",
    ),
    (";", "Script([] ~ [EmptyStatement()])"),
    (
        "{ a; { b } }",
        "Script([] ~ [Block(~ [ExpressionStatement(IdentifierExpression('a')) Block(~ [ExpressionStatement(IdentifierExpression('b'))])])])",
    ),
    (
        "a.if.in",
        "Script([] ~ [ExpressionStatement(StaticMemberExpression(StaticMemberExpression(IdentifierExpression('a') 'if') 'in'))])",
    ),
    (
        "let of = 1",
        "Script([] ~ [LexicalDeclaration(#0 [VariableDeclarator(BindingIdentifier('of') LiteralNumericExpression(1))])])",
    ),
    (
        "for (let of of of) of",
        "Script([] ~ [ForOfStatement(~ ForInOfBinding(#1 BindingIdentifier('of')) IdentifierExpression('of') ExpressionStatement(IdentifierExpression('of')))])",
    ),
    (
        "({ of: of })",
        "Script([] ~ [ExpressionStatement(ObjectExpression([DataProperty(LiteralPropertyName('of') IdentifierExpression('of'))]))])",
    ),
    (
        "(a) ? b : c",
        "Script([] ~ [ExpressionStatement(ConditionalExpression(IdentifierExpression('a') IdentifierExpression('b') IdentifierExpression('c')))])",
    ),
    (
        "({ a: b }) + c",
        "Script([] ~ [ExpressionStatement(BinaryExpression(#18 ObjectExpression([DataProperty(LiteralPropertyName('a') IdentifierExpression('b'))]) IdentifierExpression('c')))])",
    ),
    (
        "({ \"use strict\": 1 })",
        "Script([] ~ [ExpressionStatement(ObjectExpression([DataProperty(LiteralPropertyName('use strict') LiteralNumericExpression(1))]))])",
    ),
    (
        "do a\nwhile (b) c",
        "Script([] ~ [DoWhileStatement(ExpressionStatement(IdentifierExpression('a')) IdentifierExpression('b')) ExpressionStatement(IdentifierExpression('c'))])",
    ),
];

/// Sources without a tree.
pub static REFUSED: [(&str, &str); 40] = [
    ("function f(,) {}", "Syntax 11"),
    ("function f() {", "Syntax 14"),
    ("function () {}", "Syntax 9"),
    ("{", "Syntax 1"),
    ("}", "Syntax 0"),
    ("var", "Syntax 3"),
    ("var a =", "Syntax 7"),
    ("let a b", "Syntax 6"),
    ("if a", "Syntax 3"),
    ("if (a", "Syntax 5"),
    ("if (a) let b", "Syntax 7"),
    ("if (a) const b = 1", "Syntax 7"),
    ("switch (a) { default: default: }", "Syntax 22"),
    ("switch (a) { b }", "Syntax 13"),
    ("switch a {}", "Syntax 7"),
    ("try {}", "Syntax 6"),
    ("try a", "Syntax 4"),
    ("try {} catch {}", "Syntax 13"),
    ("try {} catch (a, b) {}", "Syntax 15"),
    ("a.", "Syntax 2"),
    ("a[]", "Syntax 2"),
    ("a[b", "Syntax 3"),
    ("a..b", "Syntax 2"),
    ("a ? b", "Syntax 5"),
    ("a ? b :", "Syntax 7"),
    ("a ? b c", "Syntax 6"),
    ("a = ", "Syntax 4"),
    ("a +", "Syntax 3"),
    ("+", "Syntax 1"),
    ("(", "Syntax 1"),
    ("[", "Syntax 1"),
    ("({", "Syntax 2"),
    ("a => ", "Syntax 5"),
    ("\"a", "Token"),
    ("1.5", "Token"),
    ("9007199254740992", "Token"),
    ("function", "Syntax 8"),
    ("a++ b", "Syntax 4"),
    ("({ a: 1, ...b })", "Syntax 9"),
    ("`a${b", "Syntax 5"),
];

/// A script with most of the language.
pub static CART: [(&str, &str); 1] = [(
    "var Cart = (function () {\n  \"use strict\";\n  const rates = { std: 20, low: 5, [`none`]: 0 };\n  let items = [], total = 0;\n  function add(name, price, ...tags) {\n    if (price < 0 || typeof price !== \"number\") throw new TypeError(`bad: ${price}`);\n    items.push({ name, price, tags, get tax() { return this.price * rates.std / 100; } });\n    total += price;\n    return items.length\n  }\n  const sum = (list, from = 0) => list.reduce((a, b) => a + b.price, from);\n  function report() {\n    var out = \"\";\n    outer: for (const it of items) {\n      for (let i = 0; i < it.tags.length; i++) {\n        switch (it.tags[i]) {\n          case \"hidden\": continue outer;\n          case \"last\": break outer;\n          default: out += it.tags[i] + \" \";\n        }\n      }\n      out += it.name + \": \" + it.price + \"\\n\"\n    }\n    try { JSON.parse(out) } catch (e) { out += \"?\" } finally { total = sum(items); }\n    do total -= 1; while (total > 1000000)\n    return out;\n  }\n  return { add, report, set limit(v) { total = v > total ? total : v }, size() { return items.length } };\n})();\nfor (var key in Cart) if (Cart.hasOwnProperty(key)) delete Cart[key]; else void 0;",
    "Script([] ~ [VarDeclaration([VariableDeclarator(BindingIdentifier('Cart') CallExpression(EagerFunctionExpression(- ~ [Directive('use strict')] FunctionContents(~ FormalParameters([] -) ~ [LexicalDeclaration(#1 [VariableDeclarator(BindingIdentifier('rates') ObjectExpression([DataProperty(LiteralPropertyName('std') LiteralNumericExpression(20)) DataProperty(LiteralPropertyName('low') LiteralNumericExpression(5)) DataProperty(ComputedPropertyName(TemplateExpression('none' [])) LiteralNumericExpression(0))]))]) LexicalDeclaration(#0 [VariableDeclarator(BindingIdentifier('items') ArrayExpression([])) VariableDeclarator(BindingIdentifier('total') LiteralNumericExpression(0))]) EagerFunctionDeclaration(BindingIdentifier('add') [] FunctionContents(~ FormalParameters([BindingIdentifier('name') BindingIdentifier('price')] BindingIdentifier('tags')) ~ [IfStatement(BinaryExpression(#0 BinaryExpression(#9 IdentifierExpression('price') LiteralNumericExpression(0)) BinaryExpression(#8 UnaryExpression(#4 IdentifierExpression('price')) LiteralStringExpression('number'))) ThrowStatement(NewExpression(IdentifierExpression('TypeError') [TemplateExpression('bad: ' [TemplatePart(IdentifierExpression('price') '')])])) -) ExpressionStatement(CallExpression(StaticMemberExpression(IdentifierExpression('items') 'push') [ObjectExpression([ShorthandProperty(IdentifierExpression('name')) ShorthandProperty(IdentifierExpression('price')) ShorthandProperty(IdentifierExpression('tags')) EagerGetter(LiteralPropertyName('tax') [] GetterContents(~ [ReturnStatement(BinaryExpression(#21 BinaryExpression(#20 StaticMemberExpression(ThisExpression() 'price') StaticMemberExpression(IdentifierExpression('rates') 'std')) LiteralNumericExpression(100)))]))])])) ExpressionStatement(CompoundAssignmentExpression(#0 IdentifierExpression('total') IdentifierExpression('price'))) ReturnStatement(StaticMemberExpression(IdentifierExpression('items') 'length'))])) LexicalDeclaration(#1 [VariableDeclarator(BindingIdentifier('sum') EagerArrowExpressionWithExpression(~ FormalParameters([BindingIdentifier('list') BindingWithInitializer(BindingIdentifier('from') LiteralNumericExpression(0))] -) CallExpression(StaticMemberExpression(IdentifierExpression('list') 'reduce') [EagerArrowExpressionWithExpression(~ FormalParameters([BindingIdentifier('a') BindingIdentifier('b')] -) BinaryExpression(#18 IdentifierExpression('a') StaticMemberExpression(IdentifierExpression('b') 'price'))) IdentifierExpression('from')])))]) EagerFunctionDeclaration(BindingIdentifier('report') [] FunctionContents(~ FormalParameters([] -) ~ [VarDeclaration([VariableDeclarator(BindingIdentifier('out') LiteralStringExpression(''))]) LabelledStatement('outer' ForOfStatement(~ ForInOfBinding(#2 BindingIdentifier('it')) IdentifierExpression('items') Block(~ [ForStatement(~ LexicalDeclaration(#0 [VariableDeclarator(BindingIdentifier('i') LiteralNumericExpression(0))]) BinaryExpression(#9 IdentifierExpression('i') StaticMemberExpression(StaticMemberExpression(IdentifierExpression('it') 'tags') 'length')) UpdateExpression(F #0 IdentifierExpression('i')) Block(~ [SwitchStatementWithDefault(ComputedMemberExpression(StaticMemberExpression(IdentifierExpression('it') 'tags') IdentifierExpression('i')) ~ [SwitchCase(LiteralStringExpression('hidden') [ContinueStatement('outer')]) SwitchCase(LiteralStringExpression('last') [BreakStatement('outer')])] SwitchDefault([ExpressionStatement(CompoundAssignmentExpression(#0 IdentifierExpression('out') BinaryExpression(#18 ComputedMemberExpression(StaticMemberExpression(IdentifierExpression('it') 'tags') IdentifierExpression('i')) LiteralStringExpression(' '))))]) [])])) ExpressionStatement(CompoundAssignmentExpression(#0 IdentifierExpression('out') BinaryExpression(#18 BinaryExpression(#18 BinaryExpression(#18 StaticMemberExpression(IdentifierExpression('it') 'name') LiteralStringExpression(': ')) StaticMemberExpression(IdentifierExpression('it') 'price')) LiteralStringExpression('\n'))))]))) TryFinallyStatement(Block(~ [ExpressionStatement(CallExpression(StaticMemberExpression(IdentifierExpression('JSON') 'parse') [IdentifierExpression('out')]))]) CatchClause(~ BindingIdentifier('e') Block(~ [ExpressionStatement(CompoundAssignmentExpression(#0 IdentifierExpression('out') LiteralStringExpression('?')))])) Block(~ [ExpressionStatement(AssignmentExpression(IdentifierExpression('total') CallExpression(IdentifierExpression('sum') [IdentifierExpression('items')])))])) DoWhileStatement(ExpressionStatement(CompoundAssignmentExpression(#1 IdentifierExpression('total') LiteralNumericExpression(1))) BinaryExpression(#10 IdentifierExpression('total') LiteralNumericExpression(1000000))) ReturnStatement(IdentifierExpression('out'))])) ReturnStatement(ObjectExpression([ShorthandProperty(IdentifierExpression('add')) ShorthandProperty(IdentifierExpression('report')) EagerSetter(LiteralPropertyName('limit') [] SetterContents(~ BindingIdentifier('v') ~ [ExpressionStatement(AssignmentExpression(IdentifierExpression('total') ConditionalExpression(BinaryExpression(#10 IdentifierExpression('v') IdentifierExpression('total')) IdentifierExpression('total') IdentifierExpression('v'))))])) EagerMethod(LiteralPropertyName('size') [] FunctionContents(~ FormalParameters([] -) ~ [ReturnStatement(StaticMemberExpression(IdentifierExpression('items') 'length'))]))]))])) []))]) ForInStatement(~ ForInOfBinding(#0 BindingIdentifier('key')) IdentifierExpression('Cart') IfStatement(CallExpression(StaticMemberExpression(IdentifierExpression('Cart') 'hasOwnProperty') [IdentifierExpression('key')]) ExpressionStatement(UnaryExpression(#6 ComputedMemberExpression(IdentifierExpression('Cart') IdentifierExpression('key')))) ExpressionStatement(UnaryExpression(#5 LiteralNumericExpression(0)))))])",
)];

/// Newlines, heads of arrow functions and of `for`, what is left out, and what belongs to which statement.
pub static BOUNDARIES: [(&str, &str); 31] = [
    ("a\n=> b", "Syntax 2"),
    ("(a, 1) => b", "Syntax 4"),
    ("()", "Syntax 1"),
    ("(a + b) => 1", "Syntax 3"),
    ("b + (a) => c", "Syntax 8"),
    ("([a]) => b", "NotHere BindingPattern 1"),
    ("new.target", "NotHere NewTarget 3"),
    ("(function*(){})", "NotHere Generator 9"),
    ("x = /a/;", "NotHere Regex 4"),
    ("for (a in b;;) c", "Syntax 11"),
    ("for (var a = 1 in b) c", "Syntax 15"),
    ("for (;;)", "Syntax 8"),
    ("if (a) function f(){}", "NotHere BareFunction 7"),
    ("class A {}", "NotHere Class 0"),
    ("a\n`b`", "NotHere TaggedTemplate 2"),
    ("var [a] = b;", "NotHere BindingPattern 4"),
    ("super.a", "NotHere Super 0"),
    ("with (a) b", "NotHere With 0"),
    ("import a", "NotHere Module 0"),
    ("export { a }", "NotHere Module 0"),
    ("yield a", "NotHere Generator 0"),
    (
        "a\n++b",
        "Script([] ~ [ExpressionStatement(IdentifierExpression('a')) ExpressionStatement(UpdateExpression(T #0 IdentifierExpression('b')))])",
    ),
    (
        "do a; while (b) c",
        "Script([] ~ [DoWhileStatement(ExpressionStatement(IdentifierExpression('a')) IdentifierExpression('b')) ExpressionStatement(IdentifierExpression('c'))])",
    ),
    (
        "function f() { return\n1 }",
        "Script([] ~ [EagerFunctionDeclaration(BindingIdentifier('f') [] FunctionContents(~ FormalParameters([] -) ~ [ReturnStatement(-) ExpressionStatement(LiteralNumericExpression(1))]))])",
    ),
    (
        "[a] = b;",
        "Script([] ~ [ExpressionStatement(AssignmentExpression(ArrayExpression([IdentifierExpression('a')]) IdentifierExpression('b')))])",
    ),
    (
        "if (a) b",
        "Script([] ~ [IfStatement(IdentifierExpression('a') ExpressionStatement(IdentifierExpression('b')) -)])",
    ),
    (
        "if (a) if (b) c; else d",
        "Script([] ~ [IfStatement(IdentifierExpression('a') IfStatement(IdentifierExpression('b') ExpressionStatement(IdentifierExpression('c')) ExpressionStatement(IdentifierExpression('d'))) -)])",
    ),
    (
        "a: b",
        "Script([] ~ [LabelledStatement('a' ExpressionStatement(IdentifierExpression('b')))])",
    ),
    (
        "({ get a() { return 1 }, get: 2, get, get() {} })",
        "Script([] ~ [ExpressionStatement(ObjectExpression([EagerGetter(LiteralPropertyName('a') [] GetterContents(~ [ReturnStatement(LiteralNumericExpression(1))])) DataProperty(LiteralPropertyName('get') LiteralNumericExpression(2)) ShorthandProperty(IdentifierExpression('get')) EagerMethod(LiteralPropertyName('get') [] FunctionContents(~ FormalParameters([] -) ~ []))]))])",
    ),
    (
        "(a, b) => c",
        "Script([] ~ [ExpressionStatement(EagerArrowExpressionWithExpression(~ FormalParameters([BindingIdentifier('a') BindingIdentifier('b')] -) IdentifierExpression('c')))])",
    ),
    (
        "(a, b)",
        "Script([] ~ [ExpressionStatement(SequenceExpression(IdentifierExpression('a') [IdentifierExpression('b')]))])",
    ),
];
