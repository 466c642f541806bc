//! Files with what is said of them: the line that refuses them, or the listing of their tree.

/// A file, its line (none where it is accepted), and its listing.
pub type Case = (&'static [u8], &'static str, &'static str);

/// Files of which scopes say what is true or untrue, and of a kind that is not read yet.
pub static FILES: &[Case] = &[
    (
        b"BINJS\x02[GRAMMAR]identity;\xE4\x0C\x0CScript2AssertedScriptGlobalScope&ExpressionStatement\x1CCallExpression(IdentifierExpression.LiteralStringExpression[STRINGS]identity;\x10\x04\x08eval\x021[TREE]identity;\x1A\0\0\x02\0\x01\x02\x04\x06\x08\0\x02\n\x02",
        "",
        "Script\n  directives: [0]\n  scope: AssertedScriptGlobalScope\n    declaredNames: [0]\n    hasDirectEval = true\n  statements: [1]\n    ExpressionStatement\n      expression: CallExpression\n        callee: IdentifierExpression\n          name = \"eval\"\n        arguments: [1]\n          LiteralStringExpression\n            value = \"1\"\n",
    ),
    (
        b"BINJS\x02[GRAMMAR]identity;\xE4\x0C\x0CScript2AssertedScriptGlobalScope&ExpressionStatement\x1CCallExpression(IdentifierExpression.LiteralStringExpression[STRINGS]identity;\x10\x04\x08eval\x021[TREE]identity;\x1A\0\0\x02\0\0\x02\x04\x06\x08\0\x02\n\x02",
        "file: A3 at node 3 \"eval\"\n",
        "",
    ),
    (
        b"BINJS\x02[GRAMMAR]identity;=\x02\x12\x0CScript2AssertedScriptGlobalScope(AssertedDeclaredName$LexicalDeclaration$VariableDeclarator\"BindingIdentifier\n_Null&ExpressionStatement(IdentifierExpression[STRINGS]identity;2\x06\x02x\"non-const lexical\x06let[TREE]identity;(\0\0\x02\x02\x04\0\x02\0\0\x04\x06\x04\x02\x08\n\0\x0C\x0E\x10\0",
        "",
        "Script\n  directives: [0]\n  scope: AssertedScriptGlobalScope\n    declaredNames: [1]\n      AssertedDeclaredName\n        name = \"x\"\n        kind = \"non-const lexical\"\n        isCaptured = false\n    hasDirectEval = false\n  statements: [2]\n    LexicalDeclaration\n      kind = \"let\"\n      declarators: [1]\n        VariableDeclarator\n          binding: BindingIdentifier\n            name = \"x\"\n          init: none\n    ExpressionStatement\n      expression: IdentifierExpression\n        name = \"x\"\n",
    ),
    (
        b"BINJS\x02[GRAMMAR]identity;=\x02\x12\x0CScript2AssertedScriptGlobalScope(AssertedDeclaredName$LexicalDeclaration$VariableDeclarator\"BindingIdentifier\n_Null&ExpressionStatement(IdentifierExpression[STRINGS]identity;2\x06\x02x\"non-const lexical\x06let[TREE]identity;(\0\0\x02\x02\x04\0\x02\x01\0\x04\x06\x04\x02\x08\n\0\x0C\x0E\x10\0",
        "",
        "Script\n  directives: [0]\n  scope: AssertedScriptGlobalScope\n    declaredNames: [1]\n      AssertedDeclaredName\n        name = \"x\"\n        kind = \"non-const lexical\"\n        isCaptured = true\n    hasDirectEval = false\n  statements: [2]\n    LexicalDeclaration\n      kind = \"let\"\n      declarators: [1]\n        VariableDeclarator\n          binding: BindingIdentifier\n            name = \"x\"\n          init: none\n    ExpressionStatement\n      expression: IdentifierExpression\n        name = \"x\"\n",
    ),
    (
        b"BINJS\x02[GRAMMAR]identity;=\x02\x12\x0CScript2AssertedScriptGlobalScope(AssertedDeclaredName$LexicalDeclaration$VariableDeclarator\"BindingIdentifier\n_Null&ExpressionStatement(IdentifierExpression[STRINGS]identity;2\x06\x02x\"non-const lexical\x06let[TREE]identity; \0\0\x02\0\0\x04\x06\x04\x02\x08\n\0\x0C\x0E\x10\0",
        "file: A1 at node 1 \"x\"\n",
        "",
    ),
    (
        b"BINJS\x02[GRAMMAR]identity;=\x02\x12\x0CScript2AssertedScriptGlobalScope(AssertedDeclaredName$LexicalDeclaration$VariableDeclarator\"BindingIdentifier\n_Null&ExpressionStatement(IdentifierExpression[STRINGS]identity;2\x06\x02x\"non-const lexical\x06let[TREE]identity;0\0\0\x02\x04\x04\0\x02\0\x04\0\x02\0\0\x04\x06\x04\x02\x08\n\0\x0C\x0E\x10\0",
        "file: A1 at node 1 \"x\"\n",
        "",
    ),
    (
        b"BINJS\x02[GRAMMAR]identity;\xFB\x02\x1C\x0CScript2AssertedScriptGlobalScope(AssertedDeclaredName\x1CVarDeclaration$VariableDeclarator\"BindingIdentifier\n_Null0EagerFunctionDeclaration FunctionContents,AssertedParameterScope FormalParameters AssertedVarScope&ExpressionStatement(IdentifierExpression[STRINGS]identity;\x12\x06\x02x\x06var\x02f[TREE]identity;N\0\0\x02\x04\x04\0\x02\x01\x04\x04\x02\0\0\x04\x06\x02\x08\n\0\x0C\x0E\n\x04\0\x10\x12\0\0\x01\x14\0\x0C\x16\0\0\x02\x18\x1A\0",
        "",
        "Script\n  directives: [0]\n  scope: AssertedScriptGlobalScope\n    declaredNames: [2]\n      AssertedDeclaredName\n        name = \"x\"\n        kind = \"var\"\n        isCaptured = true\n      AssertedDeclaredName\n        name = \"f\"\n        kind = \"var\"\n        isCaptured = false\n    hasDirectEval = false\n  statements: [2]\n    VarDeclaration\n      declarators: [1]\n        VariableDeclarator\n          binding: BindingIdentifier\n            name = \"x\"\n          init: none\n    EagerFunctionDeclaration\n      name: BindingIdentifier\n        name = \"f\"\n      directives: [0]\n      contents: FunctionContents\n        parameterScope: AssertedParameterScope\n          paramNames: [0]\n          hasDirectEval = false\n          isSimpleParameterList = true\n        params: FormalParameters\n          items: [0]\n          rest: none\n        bodyScope: AssertedVarScope\n          declaredNames: [0]\n          hasDirectEval = false\n        body: [1]\n          ExpressionStatement\n            expression: IdentifierExpression\n              name = \"x\"\n",
    ),
    (
        b"BINJS\x02[GRAMMAR]identity;\xFB\x02\x1C\x0CScript2AssertedScriptGlobalScope(AssertedDeclaredName\x1CVarDeclaration$VariableDeclarator\"BindingIdentifier\n_Null0EagerFunctionDeclaration FunctionContents,AssertedParameterScope FormalParameters AssertedVarScope&ExpressionStatement(IdentifierExpression[STRINGS]identity;\x12\x06\x02x\x06var\x02f[TREE]identity;N\0\0\x02\x04\x04\0\x02\0\x04\x04\x02\0\0\x04\x06\x02\x08\n\0\x0C\x0E\n\x04\0\x10\x12\0\0\x01\x14\0\x0C\x16\0\0\x02\x18\x1A\0",
        "file: A2 at node 14 \"x\"\n",
        "",
    ),
    (
        b"BINJS\x02[GRAMMAR]identity;c\x02\x14\x0CScript2AssertedScriptGlobalScope(AssertedDeclaredName.LazyFunctionDeclaration\"BindingIdentifier FunctionContents,AssertedParameterScope FormalParameters\n_Null AssertedVarScope[STRINGS]identity;\x0E\x04\x02f\x06var[TREE]identity;6\0\0\x02\x02\x04\0\x02\0\0\x02\x06\x08\0\0\x18\n\x0C\0\0\x01\x0E\0\x10\x12\0\0\0",
        "file: NotYet at node 3\n",
        "",
    ),
    (
        b"BINJS\x02[GRAMMAR]identity;\xD1\x02\x18\x0CScript2AssertedScriptGlobalScope&ExpressionStatement.EagerFunctionExpression\n_Null.AssertedBoundNamesScope FunctionContents,AssertedParameterScope>AssertedPositionalParameterName FormalParameters\"BindingIdentifier AssertedVarScope[STRINGS]identity;\x06\x02\x02a[TREE]identity;>\0\0\x02\0\0\x02\x04\x06\x08\n\0\0\0\x0C\x0E\x02\x10\0\0\0\0\0\x12\x02\x14\0\x08\x16\0\0\0",
        "file: A4 at node 6\n",
        "",
    ),
];
