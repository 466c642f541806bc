use crate::{ReadRefusal, decode, read_tree};
use bast_base::{Chars, FormatFault, Halt, Plain, Steps, Tape, Why};
use bast_schema::{Kind, KindTable, Node};
use scope_facts::Rule;
use std::alloc::Global;
use std::test::Fail;
use string_table::{Entry, StringTable};

// The kinds that the trees of these tests are spelled over, by their numbers.
const KINDS: [Kind; 15] = [
    Kind::Script,
    Kind::AssertedScriptGlobalScope,
    Kind::ExpressionStatement,
    Kind::LiteralNumericExpression,
    Kind::Directive,
    Kind::Null,
    Kind::LexicalDeclaration,
    Kind::VariableDeclarator,
    Kind::BindingIdentifier,
    Kind::BreakStatement,
    Kind::ReturnStatement,
    Kind::LazyFunctionDeclaration,
    Kind::UnaryExpression,
    Kind::Block,
    Kind::AssertedBlockScope,
];

fn kinds_of(alloc: Global) -> Result<KindTable, Fail> {
    let mut table = KindTable::new(alloc);
    for kind in &KINDS {
        table.add(*kind)?;
    }
    Ok(table)
}

fn put_entry(table: &mut StringTable, entry: Entry) -> Result<(), Fail> {
    if table.len() < 100 {
        table.add(entry)?;
    }
    Ok(())
}

fn text(alloc: Global, text: &str) -> Result<Entry, Fail> {
    Ok(Entry::Text(Chars::of(String::from_str(alloc, text)?)))
}

fn strings_of(alloc: Global) -> Result<StringTable, Fail> {
    let mut table = StringTable::new(alloc);
    put_entry(&mut table, text(alloc, "a")?)?;
    put_entry(&mut table, Entry::Absent)?;
    put_entry(&mut table, text(alloc, "let")?)?;
    put_entry(&mut table, text(alloc, "!")?)?;
    Ok(table)
}

// What is read of a tree's bytes, of which the first thousands count.
fn read(alloc: Global, tree: &[u8]) -> Result<Result<Node, Halt>, Fail> {
    let tape: Tape<Plain> = Tape::from_vec(Vec::from_slice(alloc, &tree[..tree.len().min(4000)])?);
    let kinds = kinds_of(alloc)?;
    let strings = strings_of(alloc)?;
    let mut steps = Steps::start();
    let end = tape.len();
    Ok(read_tree(alloc, &tape, &kinds, &strings, 0, end, &mut steps))
}

// Whether that is the fault of a tree's bytes.
fn has_fault(alloc: Global, tree: &[u8], at: u32, why: Why) -> Result<bool, Fail> {
    Ok(match read(alloc, tree)? {
        Ok(_) => false,
        Err(Halt::Memory) => false,
        Err(Halt::Format(fault)) => fault == FormatFault { at, why },
    })
}

// `1;` over its four kinds
#[test]
fn a_script_is_read(rt: HostRuntime) -> Result<(), Fail> {
    let alloc = rt.alloc();
    let script = read(
        alloc,
        &[0, 0, 2, 0, 0, 2, 4, 6, 0x3F, 0xF0, 0, 0, 0, 0, 0, 0],
    )??;
    assert_eq!(rt; script.depth(), 3);
    assert!(rt; script.kind() == Kind::Script);
    Ok(())
}

#[test]
fn the_first_fault_is_told(rt: HostRuntime) -> Result<(), Fail> {
    let alloc = rt.alloc();
    let rows: [(&[u8], u32, Why); 19] = [
        (&[], 0, Why::Ended),
        (&[1, 0], 1, Why::Overlong),
        (&[1, 1, 1, 1, 0x20], 4, Why::TooBig),
        // no such kind, and another kind
        (&[30], 0, Why::BadKind),
        (&[26], 0, Why::BadKind),
        // a directive among the statements, and no node where one is due
        (&[0, 0, 2, 0, 0, 2, 8, 0], 6, Why::BadKind),
        (&[0, 0, 2, 0, 0, 2, 4, 10], 7, Why::BadKind),
        (&[0, 0, 2, 0], 4, Why::Ended),
        (&[0, 0, 2, 0, 2], 4, Why::BadBool),
        // a directive with the absent string, and with none
        (&[0, 2, 8, 2], 3, Why::BadString),
        (&[0, 2, 8, 8], 3, Why::BadString),
        // a number of three bytes, and one and a half
        (&[0, 0, 2, 0, 0, 2, 4, 6, 0x3F, 0xF0, 0], 11, Why::Ended),
        (
            &[0, 0, 2, 0, 0, 2, 4, 6, 0x3F, 0xF8, 0, 0, 0, 0, 0, 0],
            8,
            Why::BadWhole,
        ),
        // a label and a choice without a text
        (&[0, 0, 2, 0, 0, 2, 18, 8], 7, Why::BadString),
        (&[0, 0, 2, 0, 0, 2, 12, 2, 0], 7, Why::BadString),
        // `!` as the word of a declaration, and a declaration of nothing
        (&[0, 0, 2, 0, 0, 2, 12, 6, 0], 7, Why::BadVariant),
        (&[0, 0, 2, 0, 0, 2, 12, 4, 0], 8, Why::EmptyList),
        // a window of three bytes where two are left, and a byte behind one of two
        (&[0, 0, 2, 0, 0, 2, 22, 16, 0, 0, 6, 9, 9], 13, Why::Ended),
        (
            &[0, 0, 2, 0, 0, 2, 22, 16, 0, 0, 4, 9, 9, 9],
            13,
            Why::Trailing,
        ),
    ];
    for (tree, at, why) in &rows {
        assert!(rt; has_fault(alloc, tree, *at, *why)?);
    }
    Ok(())
}

// The same causes at the one statement of a block.
#[test]
fn the_first_fault_in_a_block_is_told(rt: HostRuntime) -> Result<(), Fail> {
    let alloc = rt.alloc();
    let rows: [(&[u8], u32, Why); 12] = [
        (&[], 11, Why::Ended),
        (&[1, 0], 12, Why::Overlong),
        (&[1, 1, 1, 1, 0x20], 15, Why::TooBig),
        (&[30], 11, Why::BadKind),
        (&[8, 0], 11, Why::BadKind),
        (&[18, 8], 12, Why::BadString),
        (&[22, 16, 2, 0, 2, 0], 13, Why::BadString),
        (&[12, 4, 2, 14, 16, 2, 10], 16, Why::BadString),
        (&[12, 6], 12, Why::BadVariant),
        (&[12, 4, 0], 13, Why::EmptyList),
        (&[4, 6, 0x3F, 0xF8, 0, 0, 0, 0, 0, 0], 13, Why::BadWhole),
        (&[22, 16, 0, 0, 6, 9, 9], 18, Why::Ended),
    ];
    for (statement, at, why) in &rows {
        let mut tree = Vec::from_slice(alloc, &[0, 0, 2, 0, 0, 2, 26, 28, 0, 0, 2])?;
        tree.extend_from_slice(statement)?;
        assert!(rt; has_fault(alloc, &tree, *at, *why)?);
    }
    assert!(rt; has_fault(alloc, &[0, 0, 2, 0, 0, 2, 26, 28, 0, 2], 9, Why::BadBool)?);
    Ok(())
}

// The bytes of that many `!` before a number.
fn deep(alloc: Global, depth: u32) -> Result<Vec<u8>, Fail> {
    let mut tree = Vec::from_slice(alloc, &[0, 0, 2, 0, 0, 2, 4])?;
    for _ in 0..depth {
        tree.push(24)?;
        tree.push(6)?;
    }
    for byte in &[6, 0x3F, 0xF0, 0, 0, 0, 0, 0, 0] {
        tree.push(*byte)?;
    }
    Ok(tree)
}

#[test]
fn no_node_is_too_deep(rt: HostRuntime) -> Result<(), Fail> {
    let alloc = rt.alloc();
    let script = read(alloc, &deep(alloc, 509)?)??;
    assert_eq!(rt; script.depth(), 512);
    assert!(rt; has_fault(alloc, &deep(alloc, 510)?, 1027, Why::TooDeep)?);
    Ok(())
}

// `eval("1");`, whose scope tells the direct eval
const EVAL: &[u8] =
    b"BINJS\x02[GRAMMAR]identity;\xE4\x0C\x0CScript2AssertedScriptGlobalScope&ExpressionStatement\x1CCallExpression(IdentifierExpression.LiteralStringExpression[STRINGS]identity;\x10\x04\x08eval\x021[TREE]identity;\x1A\0\0\x02\0\x01\x02\x04\x06\x08\0\x02\n\x02";

// the same, whose scope does not tell it
const UNTOLD_EVAL: &[u8] =
    b"BINJS\x02[GRAMMAR]identity;\xE4\x0C\x0CScript2AssertedScriptGlobalScope&ExpressionStatement\x1CCallExpression(IdentifierExpression.LiteralStringExpression[STRINGS]identity;\x10\x04\x08eval\x021[TREE]identity;\x1A\0\0\x02\0\0\x02\x04\x06\x08\0\x02\n\x02";

// `function f() {}`, which is lazy
const LAZY: &[u8] =
    b"BINJS\x02[GRAMMAR]identity;c\x02\x14\x0CScript2AssertedScriptGlobalScope(AssertedDeclaredName.LazyFunctionDeclaration\"BindingIdentifier FunctionContents,AssertedParameterScope FormalParameters\n_Null AssertedVarScope[STRINGS]identity;\x0E\x04\x02f\x06var[TREE]identity;6\0\0\x02\x02\x04\0\x02\0\0\x02\x06\x08\0\0\x18\n\x0C\0\0\x01\x0E\0\x10\x12\0\0\0";

// What a file is read as, of which the first thousands of bytes count.
fn decoded(alloc: Global, file: &[u8]) -> Result<Result<(Node, StringTable), ReadRefusal>, Fail> {
    let tape: Tape<Plain> = Tape::from_vec(Vec::from_slice(alloc, &file[..file.len().min(4000)])?);
    let mut steps = Steps::start();
    Ok(decode(alloc, &tape, &mut steps))
}

#[test]
fn whole_files_are_read_or_refused(rt: HostRuntime) -> Result<(), Fail> {
    let alloc = rt.alloc();
    match decoded(alloc, EVAL)? {
        Ok((tree, strings)) => {
            assert!(rt; tree.kind() == Kind::Script);
            assert!(rt; strings.find("eval").is_some());
        }
        Err(_) => return Err(Fail::new("an accepted file is refused")),
    }
    match decoded(alloc, UNTOLD_EVAL)? {
        Err(ReadRefusal::Check { violation, name }) => {
            assert!(rt; violation.node == 3 && violation.rule == Rule::A3);
            assert!(rt; name.is_some_and(|text| text.as_str() == "eval"));
        }
        _ => return Err(Fail::new("a scope that tells no eval is not refused")),
    }
    match decoded(alloc, LAZY)? {
        Err(ReadRefusal::NotYet { node }) => assert!(rt; node == 3),
        _ => return Err(Fail::new("a lazy function is not refused")),
    }
    match decoded(alloc, &EVAL[..100])? {
        Err(ReadRefusal::Format(fault)) => {
            assert!(rt;
                fault
                    == FormatFault {
                        at: 100,
                        why: Why::Ended
                    }
            );
        }
        _ => return Err(Fail::new("a cut file is not refused")),
    }
    Ok(())
}
