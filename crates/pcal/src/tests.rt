// The program without the system's words, files and streams, where calls fail; and over the files of the system. Rows over whole files are in `command_rows`.

use outer_io::{DiskShelf, MemShelf, MemSink, Shelf};
use pcal_cli::run;
use std::alloc::{AllocError, Global};
use std::env::Args;
use std::io;
use std::process::ExitCode;
use std::test::Fail;

const TRANSLATE: &str = "pcal translate M.tla";

const TO_C: &str = "pcal rewrite M.tla --to c";

/// A file, and what it is translated to.
const FORM: &str =
    "---- MODULE M ----\nEXTENDS Integers\n(*\n--algorithm Inc\nvariables x = 0;\nbegin\n  A: x := x + 1;\nend algorithm\n*)\n====\n";

const TRANSLATED: &str =
    "---- MODULE M ----\nEXTENDS Integers\n(*\n--algorithm Inc\nvariables x = 0;\nbegin\n  A: x := x + 1;\nend algorithm\n*)\n\\* BEGIN TRANSLATION\nVARIABLES x, pc\n\nvars == <<x, pc>>\n\nInit ==\n  /\\ x = 0\n  /\\ pc = \"A\"\n\nA ==\n  /\\ (pc = \"A\")\n  /\\ x' = (x + 1)\n  /\\ pc' = \"Done\"\n\nTerminating ==\n  /\\ (pc = \"Done\")\n  /\\ UNCHANGED vars\n\nNext ==\n  \\/ A\n  \\/ Terminating\n\nSpec ==\n  /\\ Init\n  /\\ [][Next]_vars\n\nTermination == <>(pc = \"Done\")\n\\* END TRANSLATION\n====\n";

/// A file in P-syntax, and the same in C-syntax.
const IN_P: &str =
    "---- MODULE M ----\nEXTENDS Integers\n(*\n--fair algorithm R\nvariables x = 0, y \\in {1, 2}, z;\ndefine\n  D == x + 1\n  E(a, b) == a + b\nend define;\nmacro M(a)\nbegin\n  a := 1;\nend macro;\nprocedure P(a, b = 1)\nvariables k = a;\nbegin\n  L: return;\nend procedure;\nbegin\n  A: call P(1);\n  B: M(x);\nend algorithm\n*)\n====\n";

const IN_C: &str =
    "---- MODULE M ----\nEXTENDS Integers\n(*\n--fair algorithm R {\nvariables x = 0, y \\in {1, 2}, z;\ndefine {\n  D == x + 1\n  E(a, b) == a + b\n}\nmacro M(a)\n{\n  a := 1;\n}\nprocedure P(a, b = 1)\nvariables k = a;\n{\n  L: return;\n}\n{\n  A: call P(1);\n  B: M(x);\n}\n}\n*)\n====\n";

/// A file that is refused.
const BROKEN: &str =
    "---- MODULE M ----\nEXTENDS Integers\n(*\n--algorithm R { { x := ; } }\n*)\n====\n";

/// The words of a command line with a blank between two of them, as the system gives them.
fn words_in(alloc: Global, command: &str) -> Result<Args, AllocError> {
    let mut list = Vec::new(alloc);
    for word in command.split(' ') {
        list.push(String::from_str(alloc, word)?)?;
    }
    Ok(list.into_iter())
}

/// A shelf with this text as `M.tla`; the call of this number fails, if it isn't 0.
fn shelf_of(alloc: Global, text: &str, fails: u64) -> Result<MemShelf, AllocError> {
    let name = String::from_str(alloc, "M.tla")?;
    let texts = vec![in alloc; (name, text.as_bytes().to_vec(alloc)?)]?;
    Ok(MemShelf::new(texts, vec![in alloc; fails]?, 4096))
}

/// Runs the program, with a call of the output and one of the error output that fail, if not 0. Whether it ends with
/// this status, and these bytes on both.
fn ends<H: Shelf>(
    alloc: Global,
    words: io::Result<Args>,
    shelf: &mut H,
    fails: [u64; 2],
    expected: (u8, &str, &str),
) -> Result<bool, AllocError> {
    let mut out = MemSink::new(alloc, 10_000, vec![in alloc; fails[0]]?, 100)?;
    let mut err = MemSink::new(alloc, 10_000, vec![in alloc; fails[1]]?, 100)?;
    let code = run(alloc, words, shelf, &mut out, &mut err);
    Ok(
        code == ExitCode::from(expected.0)
            && out.bytes() == expected.1.as_bytes()
            && err.bytes() == expected.2.as_bytes(),
    )
}

/// Whether a command, on this text as `M.tla`, where these calls of the shelf, the output and the error output fail, ends
/// with this status, and these bytes on both outputs.
fn fails_so(
    alloc: Global,
    command: &str,
    text: &str,
    (shelf, out, err): (u64, u64, u64),
    expected: (u8, &str, &str),
) -> Result<bool, AllocError> {
    let mut shelf = shelf_of(alloc, text, shelf)?;
    let words = words_in(alloc, command)?;
    ends(alloc, Ok(words), &mut shelf, [out, err], expected)
}

/// A file is read in two calls, of which the second gives nothing; the output takes a hundred bytes at a call. Each row: the
/// calls of the shelf, the output and the error output that fail, if not 0; the words, the status, how many bytes of the
/// whole text go out, if not all, and the line.
const TRANSLATIONS: [(u64, u64, u64, &str, u8, usize, &str); 7] = [
    (0, 0, 1, TRANSLATE, 0, usize::MAX, ""),
    (1, 0, 0, TRANSLATE, 3, 0, "pcal: cannot read M.tla\n"),
    (1, 0, 1, TRANSLATE, 3, 0, ""),
    (
        0,
        0,
        0,
        "pcal translate N.tla",
        3,
        0,
        "pcal: cannot read N.tla\n",
    ),
    (0, 1, 0, TRANSLATE, 4, 0, "pcal: cannot write\n"),
    (0, 2, 0, TRANSLATE, 4, 100, "pcal: cannot write\n"),
    (0, 2, 1, TRANSLATE, 4, 100, ""),
];

/// The same of a rewriting to C-syntax.
const REWRITINGS: [(u64, u64, u64, &str, u8, usize, &str); 7] = [
    (1, 0, 0, TO_C, 3, 0, "pcal: cannot read M.tla\n"),
    (2, 0, 0, TO_C, 3, 0, "pcal: cannot read M.tla\n"),
    (3, 0, 0, TO_C, 0, usize::MAX, ""),
    (0, 1, 0, TO_C, 4, 0, "pcal: cannot write\n"),
    (0, 2, 0, TO_C, 4, 100, "pcal: cannot write\n"),
    (0, 3, 0, TO_C, 4, 200, "pcal: cannot write\n"),
    (0, 4, 0, TO_C, 0, usize::MAX, ""),
];

#[test]
fn each_call_may_fail(rt: HostRuntime) -> Result<(), Fail> {
    let alloc = rt.alloc();
    for (rows, text, whole) in [(TRANSLATIONS, FORM, TRANSLATED), (REWRITINGS, IN_P, IN_C)] {
        for (shelf, out, err, command, status, bytes, line) in rows {
            let written = whole.get(..bytes).unwrap_or(whole);
            let calls = (shelf, out, err);
            assert!(rt;
                fails_so(alloc, command, text, calls, (status, written, line))?,
                "{command} {status} {line}"
            );
        }
    }
    Ok(())
}

/// The line of a refusal is one write: where the first call fails nothing of it goes out, and where the second would fail all of it.
#[test]
fn each_call_of_the_error_output_may_fail(rt: HostRuntime) -> Result<(), Fail> {
    let alloc = rt.alloc();
    let told = "pcal: M.tla:4:24: 15 Syntax\n";
    let rows = [
        ((0, 0, 1), (5, "", "")),
        ((0, 0, 2), (5, "", told)),
        ((0, 1, 0), (5, "", told)),
    ];
    for (calls, expected) in rows {
        assert!(rt; fails_so(alloc, TO_C, BROKEN, calls, expected)?);
    }
    Ok(())
}

/// Words that find no memory, and words of which one isn't UTF-8.
#[test]
fn words_may_fail(rt: HostRuntime) -> Result<(), Fail> {
    let alloc = rt.alloc();
    let rows = [
        (io::ErrorKind::OutOfMemory, (1, "", "pcal: out of memory\n")),
        (io::ErrorKind::InvalidData, (2, "", "pcal: usage\n")),
    ];
    for (kind, expected) in rows {
        let mut shelf = shelf_of(alloc, "", 0)?;
        let words = Err(io::Error::from(kind));
        assert!(rt;
            ends(alloc, words, &mut shelf, [0, 0], expected)?,
            "{kind:?}"
        );
    }
    Ok(())
}

/// A directory opens and can't be read; another file isn't there.
#[test]
fn files_may_fail(rt: HostRuntime) -> Result<(), Fail> {
    let alloc = rt.alloc();
    let rows = [
        ("pcal translate .", "pcal: cannot read .\n"),
        ("pcal translate no/file", "pcal: cannot read no/file\n"),
    ];
    for (command, line) in rows {
        let mut shelf = DiskShelf::new(&rt);
        let words = words_in(alloc, command)?;
        assert!(rt;
            ends(alloc, Ok(words), &mut shelf, [0, 0], (3, "", line))?,
            "{command}"
        );
    }
    Ok(())
}

const RUN: &str = "pcal run M.tla C S";

/// An algorithm that counts, and scripts of three steps, and of one that isn't taken after them.
const COUNTS: &str =
    "---- MODULE M ----\nEXTENDS Integers\n(*\n--algorithm R\nvariables x = 0;\nbegin\n  A: while TRUE do x := x + 1; end while;\nend algorithm\n*)\n====\n";

const THREE: &str = "init\nstep :\nstep :\nstep :\n";

const FOUR: &str = "init\nstep :\nstep :\nstep :\nstep : 1\n";

const COUNTED: &str =
    "State 0: initial\n/\\ x = 0\n/\\ pc = \"A\"\nState 1: A at 7:3\n/\\ x = 1\n/\\ pc = \"A\"\nState 2: A at 7:3\n/\\ x = 2\n/\\ pc = \"A\"\nState 3: A at 7:3\n/\\ x = 3\n/\\ pc = \"A\"\n";

const LEFT_OVER: &str = "pcal: script step 4: too many choices at 7:3\n";

const TRACE: &str = "pcal trace M.tla C S";

/// Two states of that algorithm, and a third to which no step leads.
const LEAPS: &str =
    "State 1:\n/\\ x = 0\n/\\ pc = \"A\"\n\nState 2:\n/\\ x = 1\n/\\ pc = \"A\"\n\nState 3:\n/\\ x = 3\n/\\ pc = \"A\"\n";

const UP_TO_THE_LEAP: &str =
    "State 0: initial\n/\\ x = 0\n/\\ pc = \"A\"\nState 1: A at 7:3\n/\\ x = 1\n/\\ pc = \"A\"\n";

const NO_STEP: &str = "pcal: state 2 is no step\n";

/// A shelf with the files of a run or a trace; the call of this number fails, if it isn't 0.
fn run_shelf(alloc: Global, third: &str, fails: u64) -> Result<MemShelf, AllocError> {
    let mut texts = Vec::new(alloc);
    for (name, text) in [("M.tla", COUNTS), ("C", "\n"), ("S", third)] {
        texts.push((
            String::from_str(alloc, name)?,
            text.as_bytes().to_vec(alloc)?,
        ))?;
    }
    Ok(MemShelf::new(texts, vec![in alloc; fails]?, 4096))
}

/// Each of the three files is read in two calls; the states go out in two, or none of them where a file can't be read. Each row: the
/// calls of the shelf, the output and the error output that fail, if not 0; the script, the status, how many bytes go out, if not
/// all, and the line.
const RUNS: [(u64, u64, u64, &str, u8, usize, &str); 15] = [
    (1, 0, 0, THREE, 3, 0, "pcal: cannot read M.tla\n"),
    (2, 0, 0, THREE, 3, 0, "pcal: cannot read M.tla\n"),
    (3, 0, 0, THREE, 3, 0, "pcal: cannot read C\n"),
    (4, 0, 0, THREE, 3, 0, "pcal: cannot read C\n"),
    (5, 0, 0, THREE, 3, 0, "pcal: cannot read S\n"),
    (6, 0, 0, FOUR, 3, 0, "pcal: cannot read S\n"),
    (7, 0, 0, THREE, 0, usize::MAX, ""),
    (0, 1, 0, THREE, 4, 0, "pcal: cannot write\n"),
    (0, 2, 0, THREE, 4, 100, "pcal: cannot write\n"),
    (0, 3, 0, THREE, 0, usize::MAX, ""),
    (0, 1, 0, FOUR, 4, 0, "pcal: cannot write\n"),
    (0, 2, 0, FOUR, 4, 100, "pcal: cannot write\n"),
    (0, 3, 0, FOUR, 6, usize::MAX, LEFT_OVER),
    (0, 0, 1, FOUR, 6, usize::MAX, ""),
    (1, 0, 1, FOUR, 3, 0, ""),
];

/// The same of a trace, of which the text of the states of a run is one.
const TRACES: [(u64, u64, u64, &str, u8, usize, &str); 15] = [
    (1, 0, 0, COUNTED, 3, 0, "pcal: cannot read M.tla\n"),
    (2, 0, 0, COUNTED, 3, 0, "pcal: cannot read M.tla\n"),
    (3, 0, 0, COUNTED, 3, 0, "pcal: cannot read C\n"),
    (4, 0, 0, COUNTED, 3, 0, "pcal: cannot read C\n"),
    (5, 0, 0, COUNTED, 3, 0, "pcal: cannot read S\n"),
    (6, 0, 0, LEAPS, 3, 0, "pcal: cannot read S\n"),
    (7, 0, 0, COUNTED, 0, usize::MAX, ""),
    (0, 1, 0, COUNTED, 4, 0, "pcal: cannot write\n"),
    (0, 2, 0, COUNTED, 4, 100, "pcal: cannot write\n"),
    (0, 3, 0, COUNTED, 0, usize::MAX, ""),
    (0, 1, 0, LEAPS, 4, 0, "pcal: cannot write\n"),
    (0, 2, 0, LEAPS, 7, usize::MAX, NO_STEP),
    (7, 3, 2, LEAPS, 7, usize::MAX, NO_STEP),
    (0, 0, 1, LEAPS, 7, usize::MAX, ""),
    (1, 0, 1, LEAPS, 3, 0, ""),
];

/// Whether a command with these files, where these calls fail, ends with this status, and these bytes on both outputs.
fn follows_so(
    alloc: Global,
    command: &str,
    third: &str,
    (shelf, out, err): (u64, u64, u64),
    expected: (u8, &str, &str),
) -> Result<bool, AllocError> {
    let mut shelf = run_shelf(alloc, third, shelf)?;
    let words = words_in(alloc, command)?;
    ends(alloc, Ok(words), &mut shelf, [out, err], expected)
}

#[test]
fn each_call_of_a_run_or_a_trace_may_fail(rt: HostRuntime) -> Result<(), Fail> {
    let alloc = rt.alloc();
    for (rows, command) in [(RUNS, RUN), (TRACES, TRACE)] {
        for (shelf, out, err, third, status, bytes, line) in rows {
            let whole = if third == LEAPS {
                UP_TO_THE_LEAP
            } else {
                COUNTED
            };
            let written = whole.get(..bytes).unwrap_or(whole);
            let calls = (shelf, out, err);
            assert!(rt;
                follows_so(alloc, command, third, calls, (status, written, line))?,
                "{command} {status} {line}"
            );
        }
    }
    Ok(())
}
