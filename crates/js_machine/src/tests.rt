use crate::row_numbers::{ROWS, number_of};
use crate::{Event, Left, Refusal, Stop, cases, derive};
use js_tokens::tokens;
use std::alloc::Global;
use std::test::Fail;

// Longer texts are no cases.
const LONGEST: usize = 100_000;

/// How many rows the machine takes and how many semicolons count as there, or where it stops.
fn in_short(alloc: Global, text: &str) -> Result<String, Fail> {
    if text.len() > LONGEST {
        return Ok(String::new(alloc));
    }
    let tokens = match tokens(alloc, text) {
        Ok(tokens) => tokens,
        Err(_) => return Ok(String::new(alloc)),
    };
    match derive(alloc, text, &tokens) {
        Ok(events) => counted(alloc, &events),
        Err(Refusal::Memory) => Ok(String::new(alloc)),
        Err(Refusal::Stopped(stop)) => told(alloc, stop),
    }
}

fn counted(alloc: Global, events: &[Event]) -> Result<String, Fail> {
    let mut rows = 0u32;
    let mut semicolons = 0u32;
    for event in events {
        match *event {
            Event::Row(_) => rows = rows.saturating_add(1),
            Event::Inserted => semicolons = semicolons.saturating_add(1),
            Event::Took => {}
        }
    }
    Ok(format!(in alloc; "{rows} rows, {semicolons} counted")?)
}

fn told(alloc: Global, stop: Stop) -> Result<String, Fail> {
    match stop {
        Stop::Syntax { at } => Ok(format!(in alloc; "Syntax {at}")?),
        Stop::TooDeep { at } => Ok(format!(in alloc; "TooDeep {at}")?),
        Stop::NotHere { at, what } => {
            let name = name_of(what);
            Ok(format!(in alloc; "NotHere {name} {at}")?)
        }
    }
}

fn name_of(left: Left) -> &'static str {
    match left {
        Left::Class => "Class",
        Left::Super => "Super",
        Left::With => "With",
        Left::Module => "Module",
        Left::Generator => "Generator",
        Left::TaggedTemplate => "TaggedTemplate",
        Left::BindingPattern => "BindingPattern",
        Left::BareFunction => "BareFunction",
        Left::NewTarget => "NewTarget",
        Left::Regex => "Regex",
    }
}

/// The first case of which the machine makes something else than is told.
fn first_other<'a>(alloc: Global, cases: &[(&'a str, &'a str)]) -> Result<Option<&'a str>, Fail> {
    for (text, wanted) in cases {
        if in_short(alloc, text)?.as_str() != *wanted {
            return Ok(Some(*text));
        }
    }
    Ok(None)
}

/// Lines, each with its line terminator.
fn joined(alloc: Global, lines: &[&str]) -> Result<String, Fail> {
    let mut text = String::new(alloc);
    for line in lines {
        text.push_str(line)?;
        text.push('\n')?;
    }
    Ok(text)
}

#[test]
fn newlines_stand_against_some_rows(rt: HostRuntime) -> Result<(), Fail> {
    assert_eq!(rt; first_other(rt.alloc(), &cases::NEWLINES)?, None);
    Ok(())
}

#[test]
fn semicolons_count_as_there_where_they_may(rt: HostRuntime) -> Result<(), Fail> {
    assert_eq!(rt; first_other(rt.alloc(), &cases::SEMICOLONS)?, None);
    Ok(())
}

#[test]
fn an_arrow_stands_behind_one_name_or_one_head(rt: HostRuntime) -> Result<(), Fail> {
    assert_eq!(rt; first_other(rt.alloc(), &cases::ARROWS)?, None);
    Ok(())
}

#[test]
fn a_label_is_one_name(rt: HostRuntime) -> Result<(), Fail> {
    assert_eq!(rt; first_other(rt.alloc(), &cases::LABELS)?, None);
    Ok(())
}

#[test]
fn what_is_left_out_is_told(rt: HostRuntime) -> Result<(), Fail> {
    assert_eq!(rt; first_other(rt.alloc(), &cases::LEFT_OUT)?, None);
    Ok(())
}

#[test]
fn for_heads_are_taken(rt: HostRuntime) -> Result<(), Fail> {
    assert_eq!(rt; first_other(rt.alloc(), &cases::LOOPS)?, None);
    Ok(())
}

#[test]
fn words_are_names_where_they_may_be(rt: HostRuntime) -> Result<(), Fail> {
    assert_eq!(rt; first_other(rt.alloc(), &cases::WORDS)?, None);
    Ok(())
}

#[test]
fn all_other_forms_are_taken(rt: HostRuntime) -> Result<(), Fail> {
    assert_eq!(rt; first_other(rt.alloc(), &cases::SHAPES)?, None);
    Ok(())
}

#[test]
fn a_script_with_most_forms_is_derived(rt: HostRuntime) -> Result<(), Fail> {
    let alloc = rt.alloc();
    let text = joined(alloc, &cases::SCRIPT)?;
    assert_eq!(rt;
        in_short(alloc, text.as_str())?.as_str(),
        "2403 rows, 6 counted"
    );
    Ok(())
}

/// A text with others around it, `depth` times on each side.
fn nested(alloc: Global, open: &str, depth: u32, inner: &str, close: &str) -> Result<String, Fail> {
    let mut text = String::new(alloc);
    for _ in 0..depth {
        text.push_str(open)?;
    }
    text.push_str(inner)?;
    for _ in 0..depth {
        text.push_str(close)?;
    }
    Ok(text)
}

// What stands around, how often, what it stands around, what closes it, and what the machine makes of all.
static DEEP: [(&str, u32, &str, &str, &str); 20] = [
    ("(", 1024, "1", ")", "31781 rows, 1 counted"),
    ("(", 1025, "1", ")", "TooDeep 1024"),
    ("{", 1024, "", "}", "5122 rows, 0 counted"),
    ("{", 1025, "", "}", "TooDeep 1024"),
    ("(", 1024, "a + b => c", ")", "TooDeep 1030"),
    ("(", 1023, "a + b => c", ")", "Syntax 1029"),
    ("{", 1024, "if (a) b", "}", "TooDeep 1031"),
    ("{", 1024, "if (a)", "", "TooDeep 1030"),
    ("{", 1023, "if (a) b", "}", "5186 rows, 1 counted"),
    ("[", 1024, "a", "]", "TooDeep 512"),
    ("- ", 1024, " a", "", "1061 rows, 1 counted"),
    ("- ", 1025, " a", "", "TooDeep 2048"),
    ("a => ", 1024, "a", "", "30757 rows, 1 counted"),
    ("a => ", 1025, "a", "", "TooDeep 5122"),
    ("(a);", 2000, "a", "", "132037 rows, 1 counted"),
    ("a.b()+", 5000, "a", "", "65037 rows, 1 counted"),
    ("a = b; ", 3000, "", "", "192002 rows, 0 counted"),
    ("{a: ", 511, "x", "}", "19966 rows, 1 counted"),
    ("a: ", 1024, "b", "", "34853 rows, 1 counted"),
    ("a: ", 1025, "b", "", "TooDeep 3075"),
];

fn first_deep_other(alloc: Global) -> Result<Option<usize>, Fail> {
    for (number, (open, depth, inner, close, wanted)) in DEEP.iter().enumerate() {
        let text = nested(alloc, open, *depth, inner, close)?;
        if in_short(alloc, text.as_str())?.as_str() != *wanted {
            return Ok(Some(number));
        }
    }
    Ok(None)
}

#[test]
fn no_more_than_1024_stand_in_each_other(rt: HostRuntime) -> Result<(), Fail> {
    assert_eq!(rt; first_deep_other(rt.alloc())?, None);
    Ok(())
}

fn mark_rows(alloc: Global, taken: &mut [bool], text: &str) -> Result<(), Fail> {
    if text.len() > LONGEST {
        return Ok(());
    }
    let tokens = match tokens(alloc, text) {
        Ok(tokens) => tokens,
        Err(_) => return Ok(()),
    };
    let events = match derive(alloc, text, &tokens) {
        Ok(events) => events,
        Err(_) => return Ok(()),
    };
    for event in events.iter() {
        if let Event::Row(row) = *event {
            if let Some(mark) = taken.get_mut(number_of(row)) {
                *mark = true;
            }
        }
    }
    Ok(())
}

fn mark_cases(alloc: Global, taken: &mut [bool], cases: &[(&str, &str)]) -> Result<(), Fail> {
    for (text, _) in cases {
        mark_rows(alloc, taken, text)?;
    }
    Ok(())
}

// All rows but that of `Decls` without `in`, which stands in no row.
#[test]
fn each_row_is_taken_in_some_case(rt: HostRuntime) -> Result<(), Fail> {
    let alloc = rt.alloc();
    let mut taken = [false; ROWS];
    mark_cases(alloc, &mut taken, &cases::NEWLINES)?;
    mark_cases(alloc, &mut taken, &cases::SEMICOLONS)?;
    mark_cases(alloc, &mut taken, &cases::ARROWS)?;
    mark_cases(alloc, &mut taken, &cases::LABELS)?;
    mark_cases(alloc, &mut taken, &cases::LEFT_OUT)?;
    mark_cases(alloc, &mut taken, &cases::LOOPS)?;
    mark_cases(alloc, &mut taken, &cases::WORDS)?;
    mark_cases(alloc, &mut taken, &cases::SHAPES)?;
    let count = taken.iter().filter(|mark| **mark).count();
    assert_eq!(rt; count, ROWS - 1);
    Ok(())
}
