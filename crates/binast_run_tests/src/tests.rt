use crate::{file_cases, source_cases};
use bast_base::{Chars, MemSink, MemSource, Steps, SureSink, SureSource};
use binast_run::{Idle, run, run_in_memory};
use std::alloc::{AllocError, Global};
use std::test::Fail;

// The file of `1;`, but for the eight bytes of its number at the end.
const FRONT: &[u8] =
    b"BINJS\x02[GRAMMAR]identity;\x9E\x08\x0CScript\x32AssertedScriptGlobalScope\x26ExpressionStatement\x30LiteralNumericExpression[STRINGS]identity;\x02\x00[TREE]identity;\x20\x00\x00\x02\x00\x00\x02\x04\x06";

// What a run left: its status, what the sink has, and what notes has.
#[derive(Drop)]
struct Ran {
    status: u8,
    sink: MemSink,
    notes: MemSink,
}

// Runs `words`, each behind a space, with reads of 7 bytes and writes of 10.
fn run_on(
    alloc: Global,
    words: &str,
    input: &[u8],
    failing_reads: Vec<u32>,
    failing_writes: Vec<u32>,
) -> Result<Ran, AllocError> {
    let mut list = Vec::new(alloc);
    for word in words.split_ascii_whitespace() {
        list.push(Chars::of(String::from_str(alloc, word)?))?;
    }
    let mut source = MemSource::new(input.to_vec(alloc)?, 7, failing_reads);
    let mut sink = MemSink::new(vec![in alloc; 0; 400]?, 10, failing_writes);
    let mut notes = MemSink::new(vec![in alloc; 0; 100]?, 100, Vec::new(alloc));
    let mut steps = Steps::many();
    let status = run(
        alloc,
        &list,
        &mut source,
        &mut sink,
        &mut notes,
        &Idle,
        &mut steps,
    );
    Ok(Ran {
        status,
        sink,
        notes,
    })
}

fn run_whole(alloc: Global, words: &str, input: &[u8]) -> Result<Ran, AllocError> {
    run_on(alloc, words, input, Vec::new(alloc), Vec::new(alloc))
}

#[test]
fn encodes_whole_numbers(rt: HostRuntime) -> Result<(), Fail> {
    let alloc = rt.alloc();
    let cases: [(&str, &[u8]); 3] = [
        ("0;", b"\0\0\0\0\0\0\0\0"),
        ("1;", b"\x3F\xF0\0\0\0\0\0\0"),
        ("9007199254740991;", b"\x43\x3F\xFF\xFF\xFF\xFF\xFF\xFF"),
    ];
    for (text, pattern) in cases {
        let done = run_whole(alloc, "encode eager", text.as_bytes())?;
        let written = done.sink.written();
        assert_eq!(rt; done.status, 0);
        assert_eq!(rt; written.len(), 156);
        assert!(rt; written.starts_with(FRONT));
        assert!(rt; written.ends_with(pattern));
        assert_eq!(rt; done.notes.written().len(), 0);
    }
    Ok(())
}

// The line that refuses a source, or no character where its file is written.
fn line_of_source(alloc: Global, source: &[u8]) -> Result<Vec<u8>, AllocError> {
    let ran = encode_with_room(alloc, source, 4_000)?;
    if ran.0 == 0 && ran.2.written().is_empty() {
        return Ok(Vec::new(alloc));
    }
    if ran.0 == 1 && ran.1.written().is_empty() {
        return ran.2.written().to_vec(alloc);
    }
    b"neither".to_vec(alloc)
}

// Encodes a source from memory, with so much room for its file.
fn encode_with_room(
    alloc: Global,
    source: &[u8],
    room: usize,
) -> Result<(u8, SureSink, SureSink), AllocError> {
    run_large(alloc, "encode eager", source.to_vec(alloc)?, room)
}

// The first source that has another line than is told.
fn first_wrong<'a>(
    alloc: Global,
    cases: &[(&'a str, &str)],
) -> Result<Option<&'a str>, AllocError> {
    for (source, line) in cases {
        if line_of_source(alloc, source.as_bytes())?.as_slice() != line.as_bytes() {
            return Ok(Some(*source));
        }
    }
    Ok(None)
}

#[test]
fn refuses_what_has_no_tree(rt: HostRuntime) -> Result<(), Fail> {
    assert_eq!(rt; first_wrong(rt.alloc(), source_cases::REFUSED)?, None);
    Ok(())
}

#[test]
fn refuses_early_errors_and_nothing_beside_them(rt: HostRuntime) -> Result<(), Fail> {
    assert_eq!(rt; first_wrong_row(rt.alloc(), source_cases::EARLY)?, None);
    Ok(())
}

// The same of rows, each a source and an early error behind a tab, or a source alone.
fn first_wrong_row(alloc: Global, rows: &str) -> Result<Option<&str>, AllocError> {
    for row in rows.lines() {
        let (source, line) = match row.split_once('\t') {
            Some((source, error)) => (source, format!(in alloc; "source: {error}\n")?),
            None => (row, String::new(alloc)),
        };
        if line_of_source(alloc, source.as_bytes())?.as_slice() != line.as_bytes() {
            return Ok(Some(row));
        }
    }
    Ok(None)
}

#[test]
fn refuses_bytes_that_are_no_text(rt: HostRuntime) -> Result<(), Fail> {
    let alloc = rt.alloc();
    for (source, at) in source_cases::NO_TEXTS {
        let line = format!(in alloc; "source: NotUtf8 at {at}\n")?;
        assert!(rt; refuses(alloc, "encode eager", source, line.as_str())?);
    }
    Ok(())
}

#[test]
fn encodes_a_script_of_many_statements(rt: HostRuntime) -> Result<(), Fail> {
    let (source, file) = source_cases::CART;
    let (status, sink, notes) = encode_with_room(rt.alloc(), source.as_bytes(), 4_000)?;
    assert_eq!(rt; status, 0);
    assert_eq!(rt; sink.written(), file);
    assert_eq!(rt; notes.written().len(), 0);
    Ok(())
}

// The strings of a file stand in the order of their first use, and scopes tell what is declared.
#[test]
fn encodes_scopes_and_names(rt: HostRuntime) -> Result<(), Fail> {
    let alloc = rt.alloc();
    let cases: [(&str, &[u8]); 2] = [
        (
            "let x; x;",
            b"[STRINGS]identity;\x32\x06\x02x\x22non-const lexical\x06let[TREE]identity;\x28\x00\x00\x02\x02\x04\x00\x02\x00\x00\x04\x06\x04\x02\x08\x0A\x00\x0C\x0E\x10\x00",
        ),
        (
            "eval(\"1\");",
            b"[STRINGS]identity;\x10\x04\x08eval\x021[TREE]identity;\x1A\x00\x00\x02\x00\x01\x02\x04\x06\x08\x00\x02\x0A\x02",
        ),
    ];
    for (source, end) in cases {
        let (status, sink, _) = encode_with_room(alloc, source.as_bytes(), 400)?;
        assert_eq!(rt; status, 0);
        assert!(rt; sink.written().ends_with(end));
    }
    Ok(())
}

// So many of an opening, `1`, and as many closings.
fn nested(
    alloc: Global,
    opening: &[u8],
    closing: &[u8],
    count: u32,
) -> Result<Vec<u8>, AllocError> {
    let mut text = repeated(alloc, opening, count as usize)?;
    text.push(b'1')?;
    for _ in 0..count {
        text.extend_from_slice(closing)?;
    }
    Ok(text)
}

#[test]
fn bounds_nesting_and_depth(rt: HostRuntime) -> Result<(), Fail> {
    let alloc = rt.alloc();
    let most = nested(alloc, b"(", b")", 1_024)?;
    assert_eq!(rt; line_of_source(alloc, &most)?.len(), 0);
    let more = nested(alloc, b"(", b")", 1_025)?;
    assert!(rt; refuses(alloc, "encode eager", &more, "source: TooDeep at 1024\n")?);
    let mut deep = b"(".to_vec(alloc)?;
    deep.extend_from_slice(&nested(alloc, b"{a:", b"}", 256)?)?;
    deep.push(b')')?;
    assert!(rt; refuses(alloc, "encode eager", &deep, "source: DeepTree\n")?);
    Ok(())
}

// A text of nothing but blanks is an empty script.
#[test]
fn encodes_blanks_as_an_empty_script(rt: HostRuntime) -> Result<(), Fail> {
    let alloc = rt.alloc();
    for text in ["", " ", "\n", " \n \n\n"] {
        let done = run_whole(alloc, "encode eager", text.as_bytes())?;
        assert_eq!(rt; done.status, 0);
        assert_eq!(rt; done.sink.written(), EMPTY);
        assert_eq!(rt; done.notes.written().len(), 0);
    }
    Ok(())
}

#[test]
fn encodes_a_statement_for_each_number(rt: HostRuntime) -> Result<(), Fail> {
    let alloc = rt.alloc();
    let done = run_whole(alloc, "encode eager", b"1; 2;")?;
    let tree = b"\0\0\x02\0\0\x04\x04\x06\x3F\xF0\0\0\0\0\0\0\x04\x06\x40\0\0\0\0\0\0\0";
    assert_eq!(rt; done.status, 0);
    assert_eq!(rt; done.sink.written().len(), 166);
    assert!(rt; done.sink.written().ends_with(tree));
    for text in ["1;2;", "\n1;\n2;\n", "  1;2; "] {
        let same = run_whole(alloc, "encode eager", text.as_bytes())?;
        assert_eq!(rt; same.sink.written(), done.sink.written());
    }
    Ok(())
}

#[test]
fn understands_no_other_words(rt: HostRuntime) -> Result<(), Fail> {
    let alloc = rt.alloc();
    for words in [
        "",
        "encode",
        "encode eage",
        "encode eager eager",
        "eager encode",
        "decode eager",
        "check decode",
        "checks",
    ] {
        let refused = run_whole(alloc, words, b"1;")?;
        assert_eq!(rt; refused.status, 2);
        assert_eq!(rt;
            refused.notes.written(),
            b"words not understood\n".as_slice()
        );
        assert_eq!(rt; refused.sink.written().len(), 0);
    }
    Ok(())
}

// A run of `encode eager` whose source and sink move so many bytes a call, and fail in these calls.
fn encode_in_chunks(
    alloc: Global,
    input: &[u8],
    chunk: usize,
    failing_reads: Vec<u32>,
    failing_writes: Vec<u32>,
) -> Result<Ran, AllocError> {
    let words = vec![in alloc;
        Chars::of(String::from_str(alloc, "encode")?),
        Chars::of(String::from_str(alloc, "eager")?),
    ]?;
    let mut source = MemSource::new(input.to_vec(alloc)?, chunk.max(1), failing_reads);
    let mut sink = MemSink::new(vec![in alloc; 0; 400]?, chunk.max(1), failing_writes);
    let mut notes = MemSink::new(vec![in alloc; 0; 100]?, chunk.max(1), Vec::new(alloc));
    let mut steps = Steps::many();
    let status = run(
        alloc,
        &words,
        &mut source,
        &mut sink,
        &mut notes,
        &Idle,
        &mut steps,
    );
    Ok(Ran {
        status,
        sink,
        notes,
    })
}

// An input is read until a read gives nothing: each of these calls may fail, and no later one is made.
#[test]
fn tells_a_fault_of_each_read(rt: HostRuntime) -> Result<(), Fail> {
    let alloc = rt.alloc();
    let cases: [(usize, u32); 4] = [(1, 8), (3, 4), (7, 2), (100, 2)];
    for (chunk, calls) in cases {
        for call in 0..=calls {
            let fails = vec![in alloc; call]?;
            let ran = encode_in_chunks(alloc, b"1; 23;\n", chunk, fails, Vec::new(alloc))?;
            if call == calls {
                assert_eq!(rt; ran.status, 0);
                assert_eq!(rt; ran.notes.written().len(), 0);
            } else {
                assert_eq!(rt; ran.status, 3);
                assert_eq!(rt; ran.sink.written().len(), 0);
                assert_eq!(rt; ran.notes.written(), b"reading failed\n".as_slice());
            }
        }
    }
    Ok(())
}

// An output of 101 bytes is written and then flushed: what a fault of each of these calls leaves is what stood before it.
#[test]
fn tells_a_fault_of_each_write_and_of_the_flush(rt: HostRuntime) -> Result<(), Fail> {
    let alloc = rt.alloc();
    let cases: [(usize, u32); 3] = [(1, 102), (7, 16), (200, 2)];
    for (chunk, calls) in cases {
        for call in 0..=calls {
            let fails = vec![in alloc; call]?;
            let ran = encode_in_chunks(alloc, b"", chunk, Vec::new(alloc), fails)?;
            if call == calls {
                assert_eq!(rt; ran.status, 0);
                assert_eq!(rt; ran.sink.written(), EMPTY);
                assert_eq!(rt; ran.notes.written().len(), 0);
            } else {
                let passed = (call as usize * chunk).min(101);
                assert_eq!(rt; ran.status, 4);
                assert_eq!(rt; Some(ran.sink.written()), EMPTY.get(..passed));
                assert_eq!(rt; ran.notes.written(), b"writing failed\n".as_slice());
            }
        }
    }
    Ok(())
}

#[test]
fn keeps_the_front_that_a_write_of_ten_bytes_passed(rt: HostRuntime) -> Result<(), Fail> {
    let alloc = rt.alloc();
    let fails = vec![in alloc; 2]?;
    let cut = run_on(alloc, "encode eager", b"1;", Vec::new(alloc), fails)?;
    assert_eq!(rt; cut.status, 4);
    assert_eq!(rt; cut.sink.written().len(), 20);
    assert_eq!(rt; cut.notes.written(), b"writing failed\n".as_slice());
    Ok(())
}

// A call that is never made, so that nothing fails.
const NEVER: u32 = 1_000;

// Words, an input, a read and a write that fail, and the status and the line that come of these.
type FaultCase = (&'static str, &'static str, u32, u32, u8, &'static str);

// Notes that fail change no status, and keep what they took before: five bytes a call.
#[test]
fn keeps_its_status_where_notes_fail(rt: HostRuntime) -> Result<(), Fail> {
    let alloc = rt.alloc();
    let cases: [FaultCase; 7] = [
        ("encode", "1;", NEVER, NEVER, 2, "words not understood\n"),
        (
            "encode eager",
            "(",
            NEVER,
            NEVER,
            1,
            "source: Syntax at 1\n",
        ),
        ("check", "1;", NEVER, NEVER, 1, "file: BadMagic at 0\n"),
        ("encode eager", "1;", 1, NEVER, 3, "reading failed\n"),
        ("check", "1;", 1, NEVER, 3, "reading failed\n"),
        ("decode", "1;", 1, NEVER, 3, "reading failed\n"),
        ("encode eager", "1;", NEVER, 0, 4, "writing failed\n"),
    ];
    for (words, input, read, write, status, line) in cases {
        for call in 0..6u32 {
            let mut list = Vec::new(alloc);
            for word in words.split_ascii_whitespace() {
                list.push(Chars::of(String::from_str(alloc, word)?))?;
            }
            let input = input.as_bytes().to_vec(alloc)?;
            let mut source = MemSource::new(input, 1, vec![in alloc; read]?);
            let mut sink = MemSink::new(vec![in alloc; 0; 400]?, 10, vec![in alloc; write]?);
            let mut notes = MemSink::new(vec![in alloc; 0; 100]?, 5, vec![in alloc; call]?);
            let mut steps = Steps::many();
            let ended = run(
                alloc,
                &list,
                &mut source,
                &mut sink,
                &mut notes,
                &Idle,
                &mut steps,
            );
            let passed = (5 * call as usize).min(line.len());
            assert_eq!(rt; ended, status);
            assert_eq!(rt; sink.written().len(), 0);
            assert_eq!(rt; Some(notes.written()), line.as_bytes().get(..passed));
        }
    }
    Ok(())
}

// The file of an empty script.
const EMPTY: &[u8] =
    b"BINJS\x02[GRAMMAR]identity;\x44\x04\x0CScript\x32AssertedScriptGlobalScope[STRINGS]identity;\x02\x00[TREE]identity;\x0C\x00\x00\x02\x00\x00\x00";

// Other bytes in that file from one place to another, and the line that then refuses it.
#[derive(Clone, Copy)]
struct Case {
    from: usize,
    to: usize,
    put: &'static [u8],
    line: &'static str,
}

const fn refused(from: usize, to: usize, put: &'static [u8], line: &'static str) -> Case {
    Case {
        from,
        to,
        put,
        line,
    }
}

fn edited(alloc: Global, case: &Case) -> Result<Vec<u8>, AllocError> {
    let mut bytes = EMPTY.get(..case.from).unwrap_or(EMPTY).to_vec(alloc)?;
    bytes.extend_from_slice(case.put)?;
    bytes.extend_from_slice(EMPTY.get(case.to..).unwrap_or(&[]))?;
    Ok(bytes)
}

// Whether a command refuses a file with this line, and writes nothing.
fn refuses(alloc: Global, words: &str, file: &[u8], line: &str) -> Result<bool, AllocError> {
    let ran = run_whole(alloc, words, file)?;
    Ok(ran.status == 1 && ran.notes.written() == line.as_bytes() && ran.sink.written().is_empty())
}

#[test]
fn accepts_the_file_of_an_empty_script(rt: HostRuntime) -> Result<(), Fail> {
    let alloc = rt.alloc();
    let ran = run_whole(alloc, "check", EMPTY)?;
    assert_eq!(rt; ran.status, 0);
    assert_eq!(rt;
        ran.sink.written(),
        b"ok: 101 bytes, 0 lazy functions\n".as_slice()
    );
    assert_eq!(rt; ran.notes.written().len(), 0);
    Ok(())
}

#[test]
fn lists_the_tree_of_a_file(rt: HostRuntime) -> Result<(), Fail> {
    let alloc = rt.alloc();
    let file = run_whole(alloc, "encode eager", b"1;")?;
    let ran = run_whole(alloc, "decode", file.sink.written())?;
    let listing =
        "Script\n  directives: [0]\n  scope: AssertedScriptGlobalScope\n    declaredNames: [0]\n    hasDirectEval = false\n  statements: [1]\n    ExpressionStatement\n      expression: LiteralNumericExpression\n        value = 1\n";
    assert_eq!(rt; ran.status, 0);
    assert_eq!(rt; ran.sink.written(), listing.as_bytes());
    Ok(())
}

#[test]
fn refuses_files_with_their_first_fault(rt: HostRuntime) -> Result<(), Fail> {
    let alloc = rt.alloc();
    let cases = [
        refused(77, 79, b"\x04\x01\x00", "file: Overlong at 79\n"),
        refused(101, 101, b"\x00", "file: Trailing at 101\n"),
        refused(5, 6, b"\x04", "file: BadVersion 2 at 5\n"),
        refused(15, 16, b"g", "file: NotIdentity at 15\n"),
        refused(
            94,
            101,
            b"\x14\x00\x00\x02\x00\x00\xFF\xFF\xFF\xFF\x1E",
            "file: Ended at 105\n",
        ),
        refused(
            24,
            59,
            b"\x1E\x04\x0CScript\x0CScript",
            "file: Repeated 0 at 34\n",
        ),
        refused(77, 79, b"\x06\x02\x02\xFF", "file: NotUtf8 at 80\n"),
        refused(95, 96, b"\x02", "file: BadKind at 95\n"),
        refused(97, 98, b"\x00", "file: BadKind at 97\n"),
        refused(97, 98, b"\x04", "file: BadKind at 97\n"),
        refused(99, 100, b"\x02", "file: BadBool at 99\n"),
        refused(100, 101, b"\x02", "file: Ended at 101\n"),
        refused(
            94,
            101,
            b"\x0E\x00\x00\x02\x00\x00\x00\x00",
            "file: Trailing at 101\n",
        ),
        refused(96, 97, b"\x02", "file: BadKind at 97\n"),
    ];
    for case in &cases {
        let file = edited(alloc, case)?;
        assert!(rt; refuses(alloc, "decode", &file, case.line)?);
        assert!(rt; refuses(alloc, "check", &file, case.line)?);
    }
    Ok(())
}

// Each front of the file ends too early.
#[test]
fn refuses_each_front_of_a_file(rt: HostRuntime) -> Result<(), Fail> {
    let alloc = rt.alloc();
    for len in 0..101u32 {
        let front = EMPTY.get(..len as usize).unwrap_or(EMPTY);
        let line = format!(in alloc; "file: Ended at {len}\n")?;
        assert!(rt; refuses(alloc, "check", front, line.as_str())?);
    }
    Ok(())
}

// Whether a command answers a file with this output, or refuses it with this line.
fn answers(
    alloc: Global,
    words: &str,
    file: &[u8],
    line: &str,
    output: &[u8],
) -> Result<bool, AllocError> {
    let (status, sink, notes) = run_large(alloc, words, file.to_vec(alloc)?, 2_000)?;
    Ok(
        status == u8::from(!line.is_empty())
            && sink.written() == output
            && notes.written() == line.as_bytes(),
    )
}

#[test]
fn judges_what_files_say_of_scopes(rt: HostRuntime) -> Result<(), Fail> {
    let alloc = rt.alloc();
    for (file, line, listing) in file_cases::FILES {
        assert!(rt; answers(alloc, "decode", file, line, listing.as_bytes())?);
        if !line.is_empty() {
            assert!(rt; answers(alloc, "check", file, line, b"")?);
        }
    }
    Ok(())
}

// Runs a command on an input in memory, with so much room for its output.
fn run_large(
    alloc: Global,
    words: &str,
    input: Vec<u8>,
    room: usize,
) -> Result<(u8, SureSink, SureSink), AllocError> {
    let mut list = Vec::new(alloc);
    for word in words.split_ascii_whitespace() {
        list.push(Chars::of(String::from_str(alloc, word)?))?;
    }
    let mut source = SureSource::new(input);
    let mut sink = SureSink::new(vec![in alloc; 0; room]?);
    let mut notes = SureSink::new(vec![in alloc; 0; 100]?);
    let status = run_in_memory(alloc, &list, &mut source, &mut sink, &mut notes, &Idle);
    Ok((status, sink, notes))
}

fn repeated(alloc: Global, text: &[u8], times: usize) -> Result<Vec<u8>, AllocError> {
    let mut all = Vec::new(alloc);
    for _ in 0..times {
        all.extend_from_slice(text)?;
    }
    Ok(all)
}

// A file of many numbers, and what its check says.
#[test]
fn encodes_many_numbers(rt: HostRuntime) -> Result<(), Fail> {
    let alloc = rt.alloc();
    let source = repeated(alloc, b"1;", 20_000)?;
    let (status, sink, _) = run_large(alloc, "encode eager", source, 300_000)?;
    assert_eq!(rt; status, 0);
    assert_eq!(rt; sink.written().len(), 200_150);
    let (status, checked, _) = run_large(alloc, "check", sink.written().to_vec(alloc)?, 100)?;
    assert_eq!(rt; status, 0);
    assert_eq!(rt;
        checked.written(),
        b"ok: 200150 bytes, 0 lazy functions\n".as_slice()
    );
    Ok(())
}

// An input has at most 8,388,608 bytes, whatever the command reads.
#[test]
fn refuses_an_input_that_is_too_large(rt: HostRuntime) -> Result<(), Fail> {
    let alloc = rt.alloc();
    for words in ["encode eager", "decode", "check"] {
        let longer = vec![in alloc; b' '; 8_388_609]?;
        let (status, sink, notes) = run_large(alloc, words, longer, 100)?;
        assert_eq!(rt; status, 6);
        assert_eq!(rt; sink.written().len(), 0);
        assert_eq!(rt;
            notes.written(),
            b"input is larger than 8388608 bytes\n".as_slice()
        );
    }
    for words in ["decode", "check"] {
        let longest = vec![in alloc; b' '; 8_388_608]?;
        let (status, _, notes) = run_large(alloc, words, longest, 100)?;
        assert_eq!(rt; status, 1);
        assert_eq!(rt; notes.written(), b"file: BadMagic at 0\n".as_slice());
    }
    Ok(())
}
