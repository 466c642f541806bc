use super::*;
use std::alloc::Global;
use string_table::StringTable;

mod plain;

use plain::is_plain;
use tree_words::{Scopes, tree_of};

// What `encode` answers of the tree that the words tell. Its table of strings has other texts before the tree's.
fn encoded(alloc: Global, words: &str) -> Option<Result<Vec<u8>, EncodeFault>> {
    let mut strings = StringTable::new(alloc);
    strings.intern("unused").ok()?;
    if strings.len() < 9 {
        strings.intern("let").ok()?;
    }
    let tree = tree_of(alloc, &mut strings, words, ',', Scopes::Told)?;
    if !is_plain(&tree) {
        return None;
    }
    Some(encode(alloc, &tree, &strings))
}

// Whether that is the file of the tree that the words tell.
fn has_file(alloc: Global, words: &str, expected: &[u8]) -> bool {
    match encoded(alloc, words) {
        Some(Ok(file)) => file.as_slice() == expected,
        _ => false,
    }
}

// The files were told by another implementation of the format.
#[test]
fn an_empty_script_has_a_file(rt: HostRuntime) {
    let words = "Script,0,AssertedScriptGlobalScope,0,false,0";
    let expected = b"BINJS\x02\
          [GRAMMAR]identity;D\x04\x0CScript2AssertedScriptGlobalScope\
          [STRINGS]identity;\x02\x00\
          [TREE]identity;\x0C\x00\x00\x02\x00\x00\x00";
    assert_eq!(rt; expected.len(), 101);
    assert!(rt; has_file(rt.alloc(), words, expected.as_slice()));
}

// `1;`
#[test]
fn a_number_has_a_file(rt: HostRuntime) {
    let words =
        "Script,0,AssertedScriptGlobalScope,0,false,1,ExpressionStatement,LiteralNumericExpression,1";
    let expected = b"BINJS\x02\
          [GRAMMAR]identity;\x9E\x08\x0CScript2AssertedScriptGlobalScope&ExpressionStatement0LiteralNumericExpression\
          [STRINGS]identity;\x02\x00\
          [TREE]identity; \x00\x00\x02\x00\x00\x02\x04\x06?\xF0\x00\x00\x00\x00\x00\x00";
    assert_eq!(rt; expected.len(), 156);
    assert!(rt; has_file(rt.alloc(), words, expected.as_slice()));
}

// `let x; x;`
#[test]
fn names_and_choices_stand_in_order_of_first_use(rt: HostRuntime) {
    let words =
        "Script,0,AssertedScriptGlobalScope,1,AssertedDeclaredName,x,non-const lexical,false,false,2,LexicalDeclaration,let,1,VariableDeclarator,BindingIdentifier,x,-,ExpressionStatement,IdentifierExpression,x";
    let expected = b"BINJS\x02\
          [GRAMMAR]identity;=\x02\x12\x0CScript2AssertedScriptGlobalScope(AssertedDeclaredName$LexicalDeclaration$VariableDeclarator\"BindingIdentifier\x0A_Null&ExpressionStatement(IdentifierExpression\
          [STRINGS]identity;2\x06\x02x\"non-const lexical\x06let\
          [TREE]identity;(\x00\x00\x02\x02\x04\x00\x02\x00\x00\x04\x06\x04\x02\x08\x0A\x00\x0C\x0E\x10\x00";
    assert!(rt; has_file(rt.alloc(), words, expected.as_slice()));
}

// `a: while (1) { break; break a; }`
#[test]
fn a_label_that_is_absent_is_no_text(rt: HostRuntime) {
    let words =
        "Script,0,AssertedScriptGlobalScope,0,false,1,LabelledStatement,a,WhileStatement,LiteralNumericExpression,1,Block,AssertedBlockScope,0,false,2,BreakStatement,-,BreakStatement,a";
    let expected = b"BINJS\x02\
          [GRAMMAR]identity;\x09\x02\x10\x0CScript2AssertedScriptGlobalScope\"LabelledStatement\x1CWhileStatement0LiteralNumericExpression\x0ABlock$AssertedBlockScope\x1CBreakStatement\
          [STRINGS]identity;\x0C\x04\x02a\x04\xFF\x00\
          [TREE]identity;6\x00\x00\x02\x00\x00\x02\x04\x00\x06\x08?\xF0\x00\x00\x00\x00\x00\x00\x0A\x0C\x00\x00\x04\x0E\x02\x0E\x00";
    assert!(rt; has_file(rt.alloc(), words, expected.as_slice()));
}

// `x = "+" + +1;`
#[test]
fn choices_and_names_share_their_texts(rt: HostRuntime) {
    let words =
        "Script,0,AssertedScriptGlobalScope,0,false,1,ExpressionStatement,AssignmentExpression,IdentifierExpression,x,BinaryExpression,+,LiteralStringExpression,+,UnaryExpression,+,LiteralNumericExpression,1";
    let expected = b"BINJS\x02\
          [GRAMMAR]identity;e\x02\x12\x0CScript2AssertedScriptGlobalScope&ExpressionStatement(AssignmentExpression(IdentifierExpression BinaryExpression.LiteralStringExpression\x1EUnaryExpression0LiteralNumericExpression\
          [STRINGS]identity;\x0A\x04\x02x\x02+\
          [TREE]identity;2\x00\x00\x02\x00\x00\x02\x04\x06\x08\x00\x0A\x02\x0C\x02\x0E\x02\x10?\xF0\x00\x00\x00\x00\x00\x00";
    assert!(rt; has_file(rt.alloc(), words, expected.as_slice()));
}

// `a${1}b` as a template
#[test]
fn a_template_has_a_file(rt: HostRuntime) {
    let words =
        "Script,0,AssertedScriptGlobalScope,0,false,1,ExpressionStatement,TemplateExpression,a,1,TemplatePart,LiteralNumericExpression,1,b";
    let expected = b"BINJS\x02\
          [GRAMMAR]identity;\xDE\x0C\x0CScript2AssertedScriptGlobalScope&ExpressionStatement$TemplateExpression\x18TemplatePart0LiteralNumericExpression\
          [STRINGS]identity;\x0A\x04\x02a\x02b\
          [TREE]identity;*\x00\x00\x02\x00\x00\x02\x04\x06\x00\x02\x08\x0A?\xF0\x00\x00\x00\x00\x00\x00\x02";
    assert!(rt; has_file(rt.alloc(), words, expected.as_slice()));
}

// How many bytes the file of a string of so many letters has, or none where it is too large.
fn length_of(alloc: Global, letters: usize) -> Option<Option<usize>> {
    let mut words = String::from_str(
        alloc,
        "Script,0,AssertedScriptGlobalScope,0,false,1,ExpressionStatement,LiteralStringExpression,",
    )
    .ok()?;
    let text = "a".repeat(alloc, letters.min(1 << 24)).ok()?;
    words.push_str(text.as_str()).ok()?;
    match encoded(alloc, words.as_str())? {
        Ok(file) => Some(Some(file.len())),
        Err(EncodeFault::TooLarge) => Some(None),
        Err(EncodeFault::Memory) => None,
    }
}

// The lengths were told by another implementation of the format.
#[test]
fn a_file_has_8388608_bytes_at_most(rt: HostRuntime) {
    let alloc = rt.alloc();
    assert_eq!(rt; length_of(alloc, 8_388_453), Some(Some(8_388_608)));
    assert_eq!(rt; length_of(alloc, 8_388_454), Some(None));
}
