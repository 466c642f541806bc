ghost use Rattle.js_tokens.specs.Values.{IsTokenOf};

use super::*;
use std::alloc::Global;
use std::test::Fail;

// Longer texts are no cases.
const LONGEST: usize = 10_000;

/// The tokens of a text in short, or its fault.
///
/// A token is told by its kind and its text, or its value; behind a line terminator it begins with `/`, and a head ends
/// with `!`.
fn in_short(alloc: Global, text: &str) -> Result<String, Fail> {
    let mut short = String::new(alloc);
    if text.len() > LONGEST {
        return Ok(short);
    }
    match tokens(alloc, text) {
        Ok(tokens) => {
            for token in &tokens {
                put_token(alloc, &mut short, text, token)?;
            }
        }
        Err(fault) => put_fault(alloc, &mut short, fault)?,
    }
    Ok(short)
}

fn put_token(alloc: Global, short: &mut String, text: &str, token: &Token) -> Result<(), Fail> {
    if !short.as_str().is_empty() {
        short.push(' ')?;
    }
    if token.newline_before {
        short.push('/')?;
    }
    short.push_str(mark_of(token.kind))?;
    match token.kind {
        TokenKind::Number(value) => {
            let spelled = format!(in alloc; "{value}")?;
            short.push_str(spelled.as_str())?;
        }
        TokenKind::End => {}
        _ => {
            let range = token.from as usize..token.to as usize;
            short.push_str(text.get(range).unwrap_or("?"))?;
        }
    }
    if token.head {
        short.push('!')?;
    }
    Ok(())
}

fn mark_of(kind: TokenKind) -> &'static str {
    match kind {
        TokenKind::Identifier => "i:",
        TokenKind::Reserved(_) => "r:",
        TokenKind::Punctuator(_) => "p:",
        TokenKind::Number(_) => "n:",
        TokenKind::Text => "s:",
        TokenKind::Template(Piece::Whole) => "W:",
        TokenKind::Template(Piece::Head) => "H:",
        TokenKind::Template(Piece::Middle) => "M:",
        TokenKind::Template(Piece::Tail) => "T:",
        TokenKind::End => "end",
    }
}

fn put_fault(alloc: Global, short: &mut String, fault: TokenFault) -> Result<(), Fail> {
    let (name, at) = match fault {
        TokenFault::Memory => ("Memory", 0),
        TokenFault::BadChar { at } => ("BadChar", at),
        TokenFault::EndedString { at } => ("EndedString", at),
        TokenFault::EndedTemplate { at } => ("EndedTemplate", at),
        TokenFault::EndedComment { at } => ("EndedComment", at),
        TokenFault::BadEscape { at } => ("BadEscape", at),
        TokenFault::LoneSurrogate { at } => ("LoneSurrogate", at),
        TokenFault::NumberForm { at } => ("NumberForm", at),
        TokenFault::NumberTooBig { at } => ("NumberTooBig", at),
        TokenFault::EscapedName { at } => ("EscapedName", at),
    };
    let told = format!(in alloc; "{name} {at}")?;
    short.push_str(told.as_str())?;
    Ok(())
}

/// The number of the first case whose text is not cut as is told.
fn first_cut_wrong(alloc: Global, cases: &[(&str, &str)]) -> Result<Option<usize>, Fail> {
    for (number, (text, wanted)) in cases.iter().enumerate() {
        if in_short(alloc, text)?.as_str() != *wanted {
            return Ok(Some(number));
        }
    }
    Ok(None)
}

static GAPS: [(&str, &str); 30] = [
    ("a\tb", "i:a i:b end"),
    ("a\u{B}b", "i:a i:b end"),
    ("a\u{C}b", "i:a i:b end"),
    ("a b", "i:a i:b end"),
    ("a\u{A0}b", "i:a i:b end"),
    ("a\u{FEFF}b", "i:a i:b end"),
    ("a\u{1680}b", "i:a i:b end"),
    ("a\u{2000}b", "i:a i:b end"),
    ("a\u{2001}b", "i:a i:b end"),
    ("a\u{2002}b", "i:a i:b end"),
    ("a\u{2003}b", "i:a i:b end"),
    ("a\u{2004}b", "i:a i:b end"),
    ("a\u{2005}b", "i:a i:b end"),
    ("a\u{2006}b", "i:a i:b end"),
    ("a\u{2007}b", "i:a i:b end"),
    ("a\u{2008}b", "i:a i:b end"),
    ("a\u{2009}b", "i:a i:b end"),
    ("a\u{200A}b", "i:a i:b end"),
    ("a\u{202F}b", "i:a i:b end"),
    ("a\u{205F}b", "i:a i:b end"),
    ("a\u{3000}b", "i:a i:b end"),
    ("a\nb", "i:a /i:b end"),
    ("a\rb", "i:a /i:b end"),
    ("a\r\nb", "i:a /i:b end"),
    ("a\u{2028}b", "i:a /i:b end"),
    ("a\u{2029}b", "i:a /i:b end"),
    ("a\u{200B}b", "BadChar 1"),
    ("a\u{85}b", "BadChar 1"),
    ("a\u{180E}b", "BadChar 1"),
    ("", "end"),
];

#[test]
fn each_white_space_and_line_terminator_parts_tokens(rt: HostRuntime) -> Result<(), Fail> {
    assert_eq!(rt; first_cut_wrong(rt.alloc(), &GAPS)?, None);
    Ok(())
}

static MARKS: [(&str, &str); 77] = [
    ("!=!", "p:!= p:! end"),
    ("%=%", "p:%= p:% end"),
    ("&&&", "p:&& p:& end"),
    ("&=&", "p:&= p:& end"),
    ("*=*", "p:*= p:* end"),
    ("+++", "p:++ p:+ end"),
    ("+=+", "p:+= p:+ end"),
    ("---", "p:-- p:- end"),
    ("-=-", "p:-= p:- end"),
    ("/=/", "p:/= p:/ end"),
    ("<<<", "p:<< p:< end"),
    ("<=<", "p:<= p:< end"),
    ("===", "p:=== end"),
    ("=>=", "p:=> p:= end"),
    (">=>", "p:>= p:> end"),
    (">>>", "p:>>> end"),
    ("^=^", "p:^= p:^ end"),
    ("|=|", "p:|= p:| end"),
    ("|||", "p:|| p:| end"),
    ("! !=", "p:! p:!= end"),
    ("!==!", "p:!== p:! end"),
    ("% %=", "p:% p:%= end"),
    ("& &&", "p:& p:&& end"),
    ("& &=", "p:& p:&= end"),
    ("* *=", "p:* p:*= end"),
    ("+ ++", "p:+ p:++ end"),
    ("+ +=", "p:+ p:+= end"),
    ("- --", "p:- p:-- end"),
    ("- -=", "p:- p:-= end"),
    ("....", "p:... p:. end"),
    ("/ /=", "p:/ p:/= end"),
    ("< <<", "p:< p:<< end"),
    ("< <=", "p:< p:<= end"),
    ("<<=<", "p:<<= p:< end"),
    ("= ==", "p:= p:== end"),
    ("= =>", "p:= p:=> end"),
    ("====", "p:=== p:= end"),
    ("> >=", "p:> p:>= end"),
    ("> >>", "p:> p:>> end"),
    (">>=>", "p:>>= p:> end"),
    (">>>>", "p:>>> p:> end"),
    ("^ ^=", "p:^ p:^= end"),
    ("| |=", "p:| p:|= end"),
    ("| ||", "p:| p:|| end"),
    ("! !==", "p:! p:!== end"),
    ("!==!=", "p:!== p:!= end"),
    (". ...", "p:. p:... end"),
    ("< <<=", "p:< p:<<= end"),
    ("<<=<<", "p:<<= p:<< end"),
    ("= ===", "p:= p:=== end"),
    ("=====", "p:=== p:== end"),
    ("> >>=", "p:> p:>>= end"),
    ("> >>>", "p:> p:>>> end"),
    (">>=>>", "p:>>= p:>> end"),
    (">>>=>", "p:>>>= p:> end"),
    (">>>>>", "p:>>> p:>> end"),
    ("!= !==", "p:!= p:!== end"),
    ("<< <<=", "p:<< p:<<= end"),
    ("== ===", "p:== p:=== end"),
    ("> >>>=", "p:> p:>>>= end"),
    (">> >>=", "p:>> p:>>= end"),
    (">> >>>", "p:>> p:>>> end"),
    (">>>=>>", "p:>>>= p:>> end"),
    (">> >>>=", "p:>> p:>>>= end"),
    (">>>=>>>", "p:>>>= p:>>> end"),
    (">>> >>>=", "p:>>> p:>>>= end"),
    ("{}()[]", "p:{ p:} p:( p:) p:[ p:] end"),
    (";,:?~", "p:; p:, p:: p:? p:~ end"),
    ("..", "p:. p:. end"),
    ("....", "p:... p:. end"),
    ("=====", "p:=== p:== end"),
    (">>>>=", "p:>>> p:>= end"),
    ("!==!", "p:!== p:! end"),
    ("&&&=", "p:&& p:&= end"),
    ("a?.1:b", "NumberForm 2"),
    ("a--->b", "i:a p:-- p:- p:> i:b end"),
    ("<!--", "p:< p:! p:-- end"),
];

#[test]
fn the_longest_punctuator_is_taken(rt: HostRuntime) -> Result<(), Fail> {
    assert_eq!(rt; first_cut_wrong(rt.alloc(), &MARKS)?, None);
    Ok(())
}

static NUMBERS: [(&str, &str); 40] = [
    ("0", "n:0 end"),
    ("7", "n:7 end"),
    ("42", "n:42 end"),
    ("0x10", "n:16 end"),
    ("0XfF", "n:255 end"),
    ("0o17", "n:15 end"),
    ("0O7", "n:7 end"),
    ("0b101", "n:5 end"),
    ("0B1", "n:1 end"),
    ("9007199254740991", "n:9007199254740991 end"),
    ("9007199254740992", "NumberTooBig 0"),
    ("0x1FFFFFFFFFFFFF", "n:9007199254740991 end"),
    ("0x20000000000000", "NumberTooBig 0"),
    ("99999999999999999999999999", "NumberTooBig 0"),
    (
        "0b11111111111111111111111111111111111111111111111111111",
        "n:9007199254740991 end",
    ),
    (
        "0b100000000000000000000000000000000000000000000000000000",
        "NumberTooBig 0",
    ),
    ("00", "NumberForm 0"),
    ("01", "NumberForm 0"),
    ("0x", "NumberForm 0"),
    ("0xg", "NumberForm 0"),
    ("0o", "NumberForm 0"),
    ("0o8", "NumberForm 0"),
    ("0b", "NumberForm 0"),
    ("0b2", "NumberForm 0"),
    ("1a", "NumberForm 0"),
    ("1$", "NumberForm 0"),
    ("1_", "NumberForm 0"),
    ("1.", "NumberForm 0"),
    ("1.5", "NumberForm 0"),
    (".5", "NumberForm 0"),
    ("..5", "NumberForm 1"),
    ("1e3", "NumberForm 0"),
    ("3in", "NumberForm 0"),
    ("0.", "NumberForm 0"),
    ("0\\u0061", "NumberForm 0"),
    ("9007199254740992a", "NumberForm 0"),
    ("1 .a", "n:1 p:. i:a end"),
    ("1名", "NumberForm 0"),
    ("0x1.", "NumberForm 0"),
    ("1-2", "n:1 p:- n:2 end"),
];

#[test]
fn numbers_have_their_values_or_faults(rt: HostRuntime) -> Result<(), Fail> {
    assert_eq!(rt; first_cut_wrong(rt.alloc(), &NUMBERS)?, None);
    Ok(())
}

static COMMENTS: [(&str, &str); 19] = [
    ("a/*x*/b", "i:a i:b end"),
    ("a/*\n*/b", "i:a /i:b end"),
    ("a/*\r\n*/b", "i:a /i:b end"),
    ("a/*\u{2028}*/b", "i:a /i:b end"),
    ("a/* * / **/b", "i:a i:b end"),
    ("a//x\nb", "i:a /i:b end"),
    ("a//x\u{2029}b", "i:a /i:b end"),
    ("a//x", "i:a end"),
    ("//", "end"),
    ("a/*/b", "EndedComment 1"),
    ("a/**", "EndedComment 1"),
    ("/*", "EndedComment 0"),
    ("a /*\n*/", "i:a /end"),
    ("/*\n*/a", "/i:a end"),
    ("a/b", "i:a p:/ i:b end"),
    ("a/=b", "i:a p:/= i:b end"),
    ("a/ /b", "i:a p:/ p:/ i:b end"),
    ("a/*\n*/ /*x*/b", "i:a /i:b end"),
    ("a/*\"*/'x'", "i:a s:'x' end"),
];

#[test]
fn comments_carry_their_line_terminators(rt: HostRuntime) -> Result<(), Fail> {
    assert_eq!(rt; first_cut_wrong(rt.alloc(), &COMMENTS)?, None);
    Ok(())
}

static NAMES: [(&str, &str); 26] = [
    ("$a_1", "i:$a_1 end"),
    ("_", "i:_ end"),
    ("名é", "i:名é end"),
    ("a\u{200C}b\u{200D}", "i:a\u{200C}b\u{200D} end"),
    ("\u{200C}", "BadChar 0"),
    ("if", "r:if end"),
    ("iff", "i:iff end"),
    ("If", "i:If end"),
    ("instanceof in", "r:instanceof r:in end"),
    ("let yield of get", "r:let r:yield i:of i:get end"),
    ("undefined NaN", "i:undefined i:NaN end"),
    ("async await static", "i:async i:await i:static end"),
    ("\\u0061", "EscapedName 0"),
    ("a\\u0062", "EscapedName 1"),
    ("a\\", "EscapedName 1"),
    ("#", "BadChar 0"),
    ("@", "BadChar 0"),
    ("a#b", "BadChar 1"),
    ("a\u{301}", "i:a\u{301} end"),
    ("\u{301}", "BadChar 0"),
    ("\u{D7FF}", "BadChar 0"),
    ("😀", "BadChar 0"),
    ("a😀", "BadChar 1"),
    ("\u{0}", "BadChar 0"),
    ("x.if", "i:x p:. r:if end"),
    ("new.target", "r:new p:. i:target end"),
];

#[test]
fn names_and_what_is_no_name(rt: HostRuntime) -> Result<(), Fail> {
    assert_eq!(rt; first_cut_wrong(rt.alloc(), &NAMES)?, None);
    Ok(())
}

static STRINGS: [(&str, &str); 45] = [
    ("\"a\"", "s:\"a\" end"),
    ("'a'", "s:'a' end"),
    ("\"'\"", "s:\"'\" end"),
    ("'\"'", "s:'\"' end"),
    ("\"\"", "s:\"\" end"),
    ("\"a", "EndedString 0"),
    ("\"", "EndedString 0"),
    ("\"a\nb\"", "EndedString 0"),
    ("\"a\rb\"", "EndedString 0"),
    ("\"a\u{2028}b\"", "EndedString 0"),
    ("a \"b", "EndedString 2"),
    ("\"\\x4\"", "BadEscape 1"),
    ("\"\\xg0\"", "BadEscape 1"),
    ("\"\\u12\"", "BadEscape 1"),
    ("\"\\u{}\"", "BadEscape 1"),
    ("\"\\u{110000}\"", "BadEscape 1"),
    ("\"\\u{10FFFF}\"", "s:\"\\u{10FFFF}\" end"),
    ("\"\\u{0000000000041}\"", "s:\"\\u{0000000000041}\" end"),
    ("\"\\u{41\"", "BadEscape 1"),
    ("\"\\08\"", "BadEscape 1"),
    ("\"\\0\"", "s:\"\\0\" end"),
    ("\"\\01\"", "BadEscape 1"),
    ("\"\\1\"", "BadEscape 1"),
    ("\"\\9\"", "BadEscape 1"),
    ("\"\\", "BadEscape 1"),
    ("\"\\\"", "EndedString 0"),
    ("\"\\uD83D\"", "LoneSurrogate 1"),
    ("\"\\uDE00\"", "LoneSurrogate 1"),
    ("\"\\uD83D\\uDE00\"", "s:\"\\uD83D\\uDE00\" end"),
    ("\"\\uD83D\\u0041\"", "LoneSurrogate 1"),
    ("\"\\uD83D\\x\"", "LoneSurrogate 1"),
    ("\"\\uD83D", "LoneSurrogate 1"),
    ("\"\\uD83D\n\"", "LoneSurrogate 1"),
    ("\"a\\uD83D\\q\"", "LoneSurrogate 2"),
    ("\"\\uD83D\\uD83D\"", "LoneSurrogate 1"),
    ("\"\\u{D83D}\\uDE00\"", "s:\"\\u{D83D}\\uDE00\" end"),
    ("\"\\x \\uD83D\"", "BadEscape 1"),
    ("\"\\uD83D \\x\"", "LoneSurrogate 1"),
    ("\"\\q\\z\\é\"", "s:\"\\q\\z\\é\" end"),
    ("\"\\\n\"", "s:\"\\\n\" end"),
    ("\"\\\r\n\"", "s:\"\\\r\n\" end"),
    ("\"\\\r\"", "s:\"\\\r\" end"),
    ("\"\\\u{2029}\"", "s:\"\\\u{2029}\" end"),
    ("\"\\\r\n\n\"", "EndedString 0"),
    ("1 \"\\x\"", "BadEscape 3"),
];

#[test]
fn strings_end_or_fail_in_the_order_they_are_met(rt: HostRuntime) -> Result<(), Fail> {
    assert_eq!(rt; first_cut_wrong(rt.alloc(), &STRINGS)?, None);
    Ok(())
}

static TEMPLATES: [(&str, &str); 35] = [
    ("`a`", "W:`a` end"),
    ("`a${b}c`", "H:`a${ i:b T:}c` end"),
    ("`a${{}}b`", "H:`a${ p:{ p:} T:}b` end"),
    ("`${`${a}`}`", "H:`${ H:`${ i:a T:}` T:}` end"),
    ("`${a}${b}`", "H:`${ i:a M:}${ i:b T:}` end"),
    ("`${{a:{}}}`", "H:`${ p:{ i:a p:: p:{ p:} p:} T:}` end"),
    ("}", "p:} end"),
    ("{}}", "p:{ p:} p:} end"),
    ("`${}`", "H:`${ T:}` end"),
    ("`", "EndedTemplate 0"),
    ("`a", "EndedTemplate 0"),
    ("`${", "H:`${ end"),
    ("`${a", "H:`${ i:a end"),
    ("`${a}", "EndedTemplate 4"),
    ("`${a}b", "EndedTemplate 4"),
    ("}`", "EndedTemplate 1"),
    ("{`${a}`}", "p:{ H:`${ i:a T:}` p:} end"),
    ("`$`", "W:`$` end"),
    ("`$$`", "W:`$$` end"),
    ("`$${a}`", "H:`$${ i:a T:}` end"),
    ("`\\``", "W:`\\`` end"),
    ("`\\${a}`", "W:`\\${a}` end"),
    ("`{`", "W:`{` end"),
    ("`}`", "W:`}` end"),
    ("`\n`", "W:`\n` end"),
    ("`a\r\n\rb`", "W:`a\r\n\rb` end"),
    ("`\\x`", "BadEscape 1"),
    ("`\\u{110000}`", "BadEscape 1"),
    ("`\\uD83D`", "W:`\\uD83D` end"),
    ("`\\", "BadEscape 1"),
    ("`a${1}\\x", "BadEscape 6"),
    ("`${\"}\"}`", "H:`${ s:\"}\" T:}` end"),
    ("`${/*}*/a}`", "H:`${ i:a T:}` end"),
    ("a`b`", "i:a W:`b` end"),
    ("`${`a${b}c`}d`}", "H:`${ H:`a${ i:b T:}c` T:}d` p:} end"),
];

#[test]
fn templates_nest(rt: HostRuntime) -> Result<(), Fail> {
    assert_eq!(rt; first_cut_wrong(rt.alloc(), &TEMPLATES)?, None);
    Ok(())
}

static HEADS: [(&str, &str); 21] = [
    ("()=>1", "p:(! p:) p:=> n:1 end"),
    ("(a)=>1", "p:(! i:a p:) p:=> n:1 end"),
    ("(a)\n=>1", "p:( i:a p:) /p:=> n:1 end"),
    ("(a)/*\n*/=>1", "p:( i:a p:) /p:=> n:1 end"),
    ("(a)/**/=>1", "p:(! i:a p:) p:=> n:1 end"),
    ("((a)=>b)=>c", "p:(! p:(! i:a p:) p:=> i:b p:) p:=> i:c end"),
    ("((a))=>1", "p:(! p:( i:a p:) p:) p:=> n:1 end"),
    ("(a)(b)=>1", "p:( i:a p:) p:(! i:b p:) p:=> n:1 end"),
    ("(a)=1", "p:( i:a p:) p:= n:1 end"),
    ("(a", "p:( i:a end"),
    ("a)=>1", "i:a p:) p:=> n:1 end"),
    (")(=>", "p:) p:( p:=> end"),
    ("()=>()=>1", "p:(! p:) p:=> p:(! p:) p:=> n:1 end"),
    (
        "(a,(b)=>c,d)",
        "p:( i:a p:, p:(! i:b p:) p:=> i:c p:, i:d p:) end",
    ),
    ("`${(a)}`=>1", "H:`${ p:( i:a p:) T:}` p:=> n:1 end"),
    (
        "(`${(a)=>b}`)=>c",
        "p:(! H:`${ p:(! i:a p:) p:=> i:b T:}` p:) p:=> i:c end",
    ),
    ("(])=>1", "p:(! p:] p:) p:=> n:1 end"),
    ("(()=>1)()", "p:( p:(! p:) p:=> n:1 p:) p:( p:) end"),
    ("f(a)=>1", "i:f p:(! i:a p:) p:=> n:1 end"),
    ("((((a))=>1", "p:( p:( p:(! p:( i:a p:) p:) p:=> n:1 end"),
    (
        "(a)=>\n(b)=>c",
        "p:(! i:a p:) p:=> /p:(! i:b p:) p:=> i:c end",
    ),
];

#[test]
fn heads_are_the_opening_parentheses_of_arrows(rt: HostRuntime) -> Result<(), Fail> {
    assert_eq!(rt; first_cut_wrong(rt.alloc(), &HEADS)?, None);
    Ok(())
}

/// The value of a string, or its raw text or that of a piece of a template.
fn text_of(alloc: Global, text: &str, token: &Token, raw: bool) -> Result<String, Fail>
    requires { IsTokenOf text.now token.now }
{
    match token.kind {
        TokenKind::Text => {
            if raw {
                Ok(raw_text(alloc, text, token)?)
            } else {
                Ok(string_value(alloc, text, token)?)
            }
        }
        TokenKind::Template(_) => Ok(raw_text(alloc, text, token)?),
        _ => Ok(String::new(alloc)),
    }
}

/// The value, or the raw text, of the first token of a text.
fn first_text(alloc: Global, text: &str, raw: bool) -> Result<String, Fail> {
    if text.len() > LONGEST {
        return Ok(String::new(alloc));
    }
    let Ok(tokens) = tokens(alloc, text) else {
        return Ok(String::new(alloc));
    };
    match tokens.first() {
        Some(token) => text_of(alloc, text, token, raw),
        None => Ok(String::new(alloc)),
    }
}

/// The number of the first case whose first token has another value, or another raw text.
fn first_text_wrong(
    alloc: Global,
    cases: &[(&str, &str)],
    raw: bool,
) -> Result<Option<usize>, Fail> {
    for (number, (text, wanted)) in cases.iter().enumerate() {
        if first_text(alloc, text, raw)?.as_str() != *wanted {
            return Ok(Some(number));
        }
    }
    Ok(None)
}

static VALUES: [(&str, &str); 13] = [
    ("\"a\"", "a"),
    ("'é名😀'", "é名😀"),
    (
        "\"\\'\\\"\\\\\\b\\f\\n\\r\\t\\v\\0\"",
        "'\"\\\u{8}\u{C}\n\r\t\u{B}\u{0}",
    ),
    ("\"\\x41\\x7f\\xFF\"", "A\u{7F}\u{FF}"),
    ("\"\\u0041\\u{1F600}\\u{10FFFF}\"", "A😀\u{10FFFF}"),
    ("\"\\uD83D\\uDE00\"", "😀"),
    ("\"\\u{D83D}\\u{DE00}\"", "😀"),
    ("\"\\uD83D\\u{DE00}x\"", "😀x"),
    ("\"a\\\nb\\\r\nc\\\rd\\\u{2028}e\\\u{2029}f\"", "abcdef"),
    ("\"\\q\\$\\`\\é\\😀\"", "q$`é😀"),
    ("\"\"", ""),
    ("\"\\0a\\x00\"", "\u{0}a\u{0}"),
    ("\"\\u{0000041}\"", "A"),
];

#[test]
fn strings_have_values(rt: HostRuntime) -> Result<(), Fail> {
    assert_eq!(rt; first_text_wrong(rt.alloc(), &VALUES, false)?, None);
    Ok(())
}

static RAW_TEXTS: [(&str, &str); 13] = [
    ("\"a\\n\\\r\nb\"", "a\\n\\\r\nb"),
    ("'\\x41'", "\\x41"),
    ("\"\"", ""),
    ("`a`", "a"),
    ("`a\r\nb\rc\nd\r\r\n`", "a\nb\nc\nd\n\n"),
    ("`\\\r\n`", "\\\n"),
    ("``", ""),
    ("`${b}c`", ""),
    ("`\\u{41}\\uD83D`", "\\u{41}\\uD83D"),
    ("`\r\n${a}`", "\n"),
    ("`a\r${b}`", "a\n"),
    ("`名\r`", "名\n"),
    ("`\n\r`", "\n\n"),
];

#[test]
fn strings_and_templates_have_raw_texts(rt: HostRuntime) -> Result<(), Fail> {
    assert_eq!(rt; first_text_wrong(rt.alloc(), &RAW_TEXTS, true)?, None);
    Ok(())
}

#[test]
fn names_are_told_from_other_texts(rt: HostRuntime) {
    let cases = [
        ("a", true),
        ("$", true),
        ("_", true),
        ("a1", true),
        ("名", true),
        ("a\u{200C}", true),
        ("", false),
        ("1", false),
        ("a b", false),
        ("\u{200C}", false),
        ("if", true),
        ("a-b", false),
        ("a\\u0062", false),
        (" a", false),
    ];
    for (text, wanted) in cases {
        assert_eq!(rt; is_identifier_name(text), wanted, "{text}");
    }
}

static RESERVED: [&str; 38] = [
    "break",
    "case",
    "catch",
    "class",
    "const",
    "continue",
    "debugger",
    "default",
    "delete",
    "do",
    "else",
    "enum",
    "export",
    "extends",
    "false",
    "finally",
    "for",
    "function",
    "if",
    "import",
    "in",
    "instanceof",
    "let",
    "new",
    "null",
    "return",
    "super",
    "switch",
    "this",
    "throw",
    "true",
    "try",
    "typeof",
    "var",
    "void",
    "while",
    "with",
    "yield",
];

/// Whether each text is reserved, or none is.
fn all_are(texts: &[&str], reserved: bool) -> bool {
    texts.iter().all(|text| is_reserved(text) == reserved)
}

#[test]
fn reserved_words_are_told_from_other_names(rt: HostRuntime) {
    let names = ["", "a", "If", "iff", "of", "get", "set", "static", "await"];
    assert!(rt; all_are(&RESERVED, true));
    assert!(rt; all_are(&names, false));
}

#[test]
fn directives_have_the_quote_that_serves(rt: HostRuntime) {
    let cases = [
        ("use strict", Some('"')),
        ("a\"b", Some('\'')),
        ("a'b", Some('"')),
        ("a\"b'c", None),
        ("\\\"", Some('"')),
        ("a\\", None),
        ("\\x4", None),
        ("\\x41", Some('"')),
        ("a\nb", None),
        ("a\\\nb", Some('"')),
        ("\\uD83D", None),
        ("\\uD83D\\uDE00", Some('"')),
        ("", Some('"')),
        ("\"", Some('\'')),
        ("'", Some('"')),
        ("\\0", Some('"')),
        ("\\08", None),
        ("名", Some('"')),
    ];
    for (raw, wanted) in cases {
        assert_eq!(rt; directive_quote(raw), wanted, "{raw}");
    }
}

#[test]
fn templates_are_spelled_where_they_can_be(rt: HostRuntime) {
    let cases = [
        ("a", true),
        ("", true),
        ("a`b", false),
        ("a${b}", false),
        ("a$", true),
        ("${", false),
        ("$", true),
        ("\\`", true),
        ("\\${", true),
        ("\\", false),
        ("\\x", false),
        ("\\uD83D", true),
        ("a\nb", true),
        ("a\rb", false),
        ("a\\\r\n", false),
        ("{}", true),
        ("\\\n", true),
    ];
    for (raw, wanted) in cases {
        assert_eq!(rt; template_spelled(raw), wanted, "{raw}");
    }
}
