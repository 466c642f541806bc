use super::*;
use crate::notation::{LEVELS, PLAIN, class_name, push_lines, push_moded, row_text};
use js_tokens::{Mark, Piece, Token, TokenKind, Word};
use std::alloc::{AllocError, Global};
use std::test::Fail;

// The grammar in its notation, each symbol's rows in the order of their texts. `~` marks what may not hold `in`, `^` a row
// that counts for the nest; a symbol with a number is a level of operators.
static TABLE: [&str; 116] = [
    "Script: Items end\n",
    "Items: - | Item Items\n",
    "Item: Function | Lexical | Stat\n",
    "Lexical: const Decls Semi | let Decls Semi\n",
    "Function: function Bind ( Params ) { Items } ^\n",
    "Params: - | ... Bind | Bind Init ParamTail\n",
    "ParamTail: , ParamNext | -\n",
    "ParamNext: ... Bind | Bind Init ParamTail\n",
    "Body: Stat ^\n",
    "Stat: ; | Block | Expr Label | break Jump | continue Jump | debugger Semi | do Body while ( Expr ) DoEnd | for ( ForHead ) Body | if ( Expr ) Body Else | return Ret | switch ( Expr ) { Cases } ^ | throw Throw | try Block TryRest | var Decls Semi | while ( Expr ) Body\n",
    "Block: { Items } ^\n",
    "Else: - | else Body\n",
    "DoEnd: - | ;\n",
    "Jump: Ident Semi | Semi\n",
    "Ret: Expr Semi | Semi\n",
    "Throw: Expr Semi\n",
    "Label: : Body | Semi\n",
    "ForHead: ; ForRest | Expr~ ForExpr | const Bind ForBind | let Bind ForBind | var Bind ForBind\n",
    "ForBind: Init~ DeclTail~ ; ForRest | in Expr | of Assign\n",
    "ForExpr: ; ForRest | in Expr | of Assign\n",
    "ForRest: ExprOpt ; ExprOpt\n",
    "ExprOpt: - | Expr\n",
    "Cases: - | case Expr : Items Cases | default : Items CasesD\n",
    "CasesD: - | case Expr : Items CasesD\n",
    "TryRest: catch ( Bind ) Block Fin | finally Block\n",
    "Fin: - | finally Block\n",
    "Unary: ++ Unary ^ | -- Unary ^ | Lhs Post | unop Unary ^\n",
    "Post: ++ | - | --\n",
    "Lhs: New LhsTail | Primary LhsTail\n",
    "LhsTail: ( Args ) Again | - | Access LhsTail\n",
    "Again: LhsTail\n",
    "Access: . Name | [ Expr ] ^\n",
    "New: new Callee NewArgs ^\n",
    "Callee: New MemberTail | Primary MemberTail\n",
    "MemberTail: - | Access MemberTail\n",
    "NewArgs: ( Args ) | -\n",
    "Args: - | Arg ArgMore\n",
    "ArgMore: , Arg ArgMore | -\n",
    "Arg: ... Assign ^ | Assign ^\n",
    "Primary: ( Expr ) ^ | Head TplRest ^ | Ident | Whole | [ Elems ] ^ | false | function FuncName ( Params ) { Items } ^ | head Params ) ^ | null | number | string | this | true | { Props } ^\n",
    "FuncName: - | Bind\n",
    "Elems: , Elems | - | Arg ElemMore\n",
    "ElemMore: , Elems | -\n",
    "Props: - | Prop PropMore\n",
    "PropMore: , Props | -\n",
    "Prop: Ident Short | Name Long | [ Assign ] Long | get GetRest | number Long | set SetRest | string Long\n",
    "Long: : Assign | Method\n",
    "Short: - | : Assign | Method\n",
    "GetRest: - | : Assign | Method | PropName ( ) { Items } ^\n",
    "SetRest: - | : Assign | Method | PropName ( Bind Init ) { Items } ^\n",
    "Method: ( Params ) { Items } ^\n",
    "PropName: Name | [ Assign ] | number | string\n",
    "TplRest: Expr TplMore\n",
    "TplMore: Middle Expr TplMore | Tail\n",
    "Decls: Decl DeclTail\n",
    "DeclTail: , Decl DeclTail | -\n",
    "Decl: Bind Init\n",
    "Init: - | = Assign\n",
    "Expr: Assign Comma\n",
    "Comma: , Assign Comma | -\n",
    "Assign: Cond AssignTail\n",
    "AssignTail: - | = Assign ^ | => Arrow ^ | compound Assign ^\n",
    "Arrow: Assign | { Items }\n",
    "Cond: L3 CondTail\n",
    "CondTail: - | ? Assign : Assign ^\n",
    "L3: L4 T3\n",
    "T3: - | op3 L4 T3\n",
    "L4: L5 T4\n",
    "T4: - | op4 L5 T4\n",
    "L5: L6 T5\n",
    "T5: - | op5 L6 T5\n",
    "L6: L7 T6\n",
    "T6: - | op6 L7 T6\n",
    "L7: L8 T7\n",
    "T7: - | op7 L8 T7\n",
    "L8: L9 T8\n",
    "T8: - | op8 L9 T8\n",
    "L9: L10 T9\n",
    "T9: - | op9 L10 T9\n",
    "L10: L11 T10\n",
    "T10: - | op10 L11 T10\n",
    "L11: L12 T11\n",
    "T11: - | op11 L12 T11\n",
    "L12: Unary T12\n",
    "T12: - | op12 Unary T12\n",
    "Decls~: Decl~ DeclTail~\n",
    "DeclTail~: , Decl~ DeclTail~ | -\n",
    "Decl~: Bind Init~\n",
    "Init~: - | = Assign~\n",
    "Expr~: Assign~ Comma~\n",
    "Comma~: , Assign~ Comma~ | -\n",
    "Assign~: Cond~ AssignTail~\n",
    "AssignTail~: - | = Assign~ ^ | => Arrow~ ^ | compound Assign~ ^\n",
    "Arrow~: Assign~ | { Items }\n",
    "Cond~: L3~ CondTail~\n",
    "CondTail~: - | ? Assign : Assign~ ^\n",
    "L3~: L4~ T3~\n",
    "T3~: - | op3 L4~ T3~\n",
    "L4~: L5~ T4~\n",
    "T4~: - | op4 L5~ T4~\n",
    "L5~: L6~ T5~\n",
    "T5~: - | op5 L6~ T5~\n",
    "L6~: L7~ T6~\n",
    "T6~: - | op6 L7~ T6~\n",
    "L7~: L8~ T7~\n",
    "T7~: - | op7 L8~ T7~\n",
    "L8~: L9~ T8~\n",
    "T8~: - | op8 L9~ T8~\n",
    "L9~: L10~ T9~\n",
    "T9~: - | op9~ L10~ T9~\n",
    "L10~: L11~ T10~\n",
    "T10~: - | op10 L11~ T10~\n",
    "L11~: L12~ T11~\n",
    "T11~: - | op11 L12~ T11~\n",
    "L12~: Unary T12~\n",
    "T12~: - | op12 Unary T12~\n",
];

fn joined(alloc: Global, lines: &[&str]) -> Result<String, AllocError> {
    let mut text = String::new(alloc);
    for line in lines {
        text.push_str(line)?;
    }
    Ok(text)
}

#[test]
fn rows_are_those_of_the_table(rt: HostRuntime) -> Result<(), Fail> {
    let alloc = rt.alloc();
    let mut text = String::new(alloc);
    push_lines(alloc, &mut text, &PLAIN)?;
    push_moded(alloc, &mut text, Mode::WithIn, &LEVELS)?;
    push_moded(alloc, &mut text, Mode::NoIn, &LEVELS)?;
    let table = joined(alloc, &TABLE)?;
    assert_eq!(rt; text, table);
    Ok(())
}

// A symbol, a token before which it stands, whether that token stands behind a newline, and the row; "" is none.
static CHOICES: [(Symbol, Class, bool, &str); 24] = [
    (Symbol::Stat, Class::OpenBrace, false, "Block"),
    (Symbol::Stat, Class::Function, false, ""),
    (Symbol::Stat, Class::Let, false, ""),
    (Symbol::Item, Class::Function, false, "Function"),
    (Symbol::Ret, Class::Identifier, false, "Expr Semi"),
    (Symbol::Ret, Class::Identifier, true, "Semi"),
    (Symbol::Ret, Class::CloseParen, false, "Semi"),
    (Symbol::Jump, Class::Get, true, "Semi"),
    (Symbol::Throw, Class::CloseParen, false, "Expr Semi"),
    (Symbol::Throw, Class::Identifier, true, ""),
    (Symbol::Post, Class::Increment, true, "-"),
    (
        Symbol::AssignTail(Mode::WithIn),
        Class::Arrow,
        false,
        "=> Arrow ^",
    ),
    (Symbol::AssignTail(Mode::WithIn), Class::Arrow, true, "-"),
    (
        Symbol::LevelTail(Level::Relational, Mode::WithIn),
        Class::In,
        false,
        "op9 L10 T9",
    ),
    (
        Symbol::LevelTail(Level::Relational, Mode::NoIn),
        Class::In,
        false,
        "-",
    ),
    (
        Symbol::CondTail(Mode::NoIn),
        Class::Question,
        true,
        "? Assign : Assign~ ^",
    ),
    (Symbol::Params, Class::CloseParen, false, "-"),
    (Symbol::Params, Class::OpenBracket, false, ""),
    (Symbol::LhsTail, Class::TemplateWhole, false, ""),
    (Symbol::LhsTail, Class::TemplateMiddle, false, "-"),
    (Symbol::LhsTail, Class::HeadParen, true, "( Args ) Again"),
    (Symbol::Primary, Class::HeadParen, false, "head Params ) ^"),
    (Symbol::Prop, Class::If, false, "Name Long"),
    (Symbol::Semi, Class::Semicolon, false, ""),
];

fn is_chosen(alloc: Global, choice: &(Symbol, Class, bool, &str)) -> Result<bool, AllocError> {
    let (symbol, class, newline, wanted) = *choice;
    match row(symbol, class, newline) {
        None => Ok(wanted.is_empty()),
        Some(taken) => Ok(row_text(alloc, taken)?.as_str() == wanted),
    }
}

fn first_other(
    alloc: Global,
    choices: &[(Symbol, Class, bool, &str)],
) -> Result<Option<usize>, AllocError> {
    for (place, choice) in choices.iter().enumerate() {
        if !is_chosen(alloc, choice)? {
            return Ok(Some(place));
        }
    }
    Ok(None)
}

#[test]
fn rows_are_chosen_by_the_token(rt: HostRuntime) -> Result<(), Fail> {
    let alloc = rt.alloc();
    assert_eq!(rt; first_other(alloc, &CHOICES)?, None);
    Ok(())
}

// The class of a token that is its whole text.
fn class_of_whole(text: &str, kind: TokenKind, head: bool) -> Class {
    let Ok(to) = u32::try_from(text.len()) else {
        return Class::OtherWord;
    };
    let token = Token {
        kind,
        from: 0,
        to,
        newline_before: false,
        head,
    };
    class_of(text, &token)
}

// A token that is the whole text, and what its class is written as.
static CLASSES_OF_TOKENS: [(&str, TokenKind, bool, &str); 18] = [
    ("of", TokenKind::Identifier, false, "of"),
    ("get", TokenKind::Identifier, false, "get"),
    ("set", TokenKind::Identifier, false, "set"),
    ("gets", TokenKind::Identifier, false, "identifier"),
    ("o", TokenKind::Identifier, false, "identifier"),
    ("(", TokenKind::Punctuator(Mark::OpenParen), true, "head"),
    ("(", TokenKind::Punctuator(Mark::OpenParen), false, "("),
    (
        "/=",
        TokenKind::Punctuator(Mark::SlashAssign),
        false,
        "compound",
    ),
    (
        "/",
        TokenKind::Punctuator(Mark::Slash),
        false,
        "multiplicative",
    ),
    ("~", TokenKind::Punctuator(Mark::Tilde), false, "complement"),
    ("let", TokenKind::Reserved(Word::Let), false, "let"),
    (
        "delete",
        TokenKind::Reserved(Word::Delete),
        false,
        "unaryword",
    ),
    (
        "yield",
        TokenKind::Reserved(Word::Yield),
        false,
        "otherword",
    ),
    ("12", TokenKind::Number(12), false, "number"),
    ("'a'", TokenKind::Text, false, "string"),
    ("`a${", TokenKind::Template(Piece::Head), false, "Head"),
    ("}a`", TokenKind::Template(Piece::Tail), false, "Tail"),
    ("", TokenKind::End, false, "end"),
];

fn first_misnamed(tokens: &[(&str, TokenKind, bool, &str)]) -> Option<usize> {
    for (place, token) in tokens.iter().enumerate() {
        let (text, kind, head, wanted) = *token;
        if class_name(class_of_whole(text, kind, head)) != wanted {
            return Some(place);
        }
    }
    None
}

#[test]
fn tokens_have_their_classes(rt: HostRuntime) {
    assert_eq!(rt; first_misnamed(&CLASSES_OF_TOKENS), None);
}
