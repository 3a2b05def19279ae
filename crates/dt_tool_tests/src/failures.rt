//! How runs end where reads, writes and reports fail (docs/COMMANDS.md, "Outcomes").
use crate::runs::{Asked, End, Failing, NOP_LINE, NOTHING_FAILS, STEP, check};
use dt_tool::Outcome;
use dt_tool::stop::Stop;
use std::process::Abort;
use std::test::Fail;

const NOP_TEXT: &[u8] = b"/* Made from pattern files. */

typedef struct {
} arg_decode0;

typedef arg_decode0 arg_nop;
static bool trans_nop(DisasContext *ctx, arg_nop *a);

static void decode_extract_decode_Fmt_0(DisasContext *ctx, arg_decode0 *a, uint32_t insn)
{
}

static bool decode(DisasContext *ctx, uint32_t insn)
{
    union {
        arg_decode0 f_decode0;
    } u;

    if ((insn & 0xffffffff) == 0x00000000) {
        /* 1:1 */
        decode_extract_decode_Fmt_0(ctx, &u.f_decode0, insn);
        if (trans_nop(ctx, &u.f_decode0)) return true;
    }
    return false;
}
";

const T_IS_NOT_READ: End<'static> = End {
    outcome: Outcome::ReadFault,
    number: 3,
    out: b"",
    err: "error: cannot read t\n",
    left: None,
};

const S_IS_NOT_READ: End<'static> = End {
    err: "error: cannot read s\n",
    ..T_IS_NOT_READ
};

const IS_REFUSED: End<'static> = End {
    outcome: Outcome::Refused,
    number: 1,
    out: b"",
    err: "",
    left: None,
};

const NOTHING_IS_WRITTEN: End<'static> = End {
    outcome: Outcome::WriteFault,
    number: 4,
    out: b"",
    err: "error: cannot write\n",
    left: None,
};

const NOP_IS_WRITTEN: End<'static> = End {
    outcome: Outcome::Done,
    number: 0,
    out: NOP_TEXT,
    err: "",
    left: None,
};

/// `gen` of one pattern.
const GEN_NOP: Asked<'static> = Asked {
    words: &["gen", "t"],
    texts: [NOP_LINE, ""],
};

/// `gen` of no pattern.
const GEN_NOTHING: Asked<'static> = Asked {
    words: &["gen", "t"],
    texts: ["", ""],
};

/// `gen` of no pattern to a file.
const GEN_TO_O: Asked<'static> = Asked {
    words: &["gen", "-o", "o", "t"],
    texts: ["", ""],
};

/// The run ends so where one call of the folder fails, by the number of the call.
fn check_calls(rt: &(impl Abort + AllocGlobal), asked: &Asked, table: &[(u64, End)]) {
    for (call, end) in table {
        let failing = [*call];
        let calls_fail = Failing {
            calls: &failing,
            ..NOTHING_FAILS
        };
        check(rt, asked, calls_fail, *call, end);
    }
}

/// The run ends so where one write to standard output fails.
fn check_write(rt: &(impl Abort + AllocGlobal), asked: &Asked, write: u64, end: &End) {
    let failing = [write];
    let writes_fail = Failing {
        writes: &failing,
        ..NOTHING_FAILS
    };
    check(rt, asked, writes_fail, write, end);
}

/// A file is asked for a byte past its limit, and then read, 16 bytes a call, up to a call that reads nothing.
#[test]
fn each_read_that_fails_is_a_read_fault_of_its_file(rt: HostRuntime) {
    let table: &[(u64, End)] = &[
        (1, T_IS_NOT_READ),
        (2, T_IS_NOT_READ),
        (3, T_IS_NOT_READ),
        (4, T_IS_NOT_READ),
        (5, T_IS_NOT_READ),
        (6, NOP_IS_WRITTEN),
    ];
    check_calls(&rt, &GEN_NOP, table);
}

#[test]
fn each_read_of_two_files_that_fails_is_a_read_fault_of_its_file(rt: HostRuntime) {
    let first: &[(u64, End)] = &[
        (1, T_IS_NOT_READ),
        (2, T_IS_NOT_READ),
        (3, T_IS_NOT_READ),
        (4, T_IS_NOT_READ),
        (5, T_IS_NOT_READ),
        (6, S_IS_NOT_READ),
        (7, S_IS_NOT_READ),
        (8, NOP_IS_WRITTEN),
    ];
    let t_and_s = Asked {
        words: &["gen", "t", "s"],
        ..GEN_NOP
    };
    check_calls(&rt, &t_and_s, first);
    let second: &[(u64, End)] = &[
        (1, S_IS_NOT_READ),
        (2, S_IS_NOT_READ),
        (3, S_IS_NOT_READ),
        (4, S_IS_NOT_READ),
        (5, S_IS_NOT_READ),
        (6, T_IS_NOT_READ),
        (7, T_IS_NOT_READ),
        (8, NOP_IS_WRITTEN),
    ];
    let s_and_t = Asked {
        words: &["gen", "s", "t"],
        texts: ["", NOP_LINE],
    };
    check_calls(&rt, &s_and_t, second);
}

#[test]
fn each_read_of_a_c_text_that_fails_is_a_read_fault(rt: HostRuntime) {
    let eval = Asked {
        words: &["eval", "t", "0", "-"],
        texts: ["int x;", ""],
    };
    let table: &[(u64, End)] = &[
        (1, T_IS_NOT_READ),
        (2, T_IS_NOT_READ),
        (3, T_IS_NOT_READ),
        (
            4,
            End {
                err: "error: C1 not in the subset\n",
                ..IS_REFUSED
            },
        ),
    ];
    check_calls(&rt, &eval, table);
}

#[test]
fn a_sink_that_fails_holds_a_prefix_of_the_text(rt: HostRuntime) {
    let end = End {
        out: b"/* Made from pat",
        ..NOTHING_IS_WRITTEN
    };
    check_write(&rt, &GEN_NOTHING, 2, &end);
}

/// The text has 558 bytes, so it is written in 35 calls.
#[test]
fn each_write_that_fails_leaves_what_was_written_before(rt: HostRuntime) {
    for write in 1..=35 {
        let kept = (write as usize).saturating_sub(1).saturating_mul(STEP);
        let end = End {
            out: NOP_TEXT.get(..kept).expect(&rt, "a prefix"),
            ..NOTHING_IS_WRITTEN
        };
        check_write(&rt, &GEN_NOP, write, &end);
    }
    check_write(&rt, &GEN_NOP, 36, &NOP_IS_WRITTEN);
}

#[test]
fn a_failure_of_standard_error_changes_no_status(rt: HostRuntime) {
    let broken = Asked {
        words: &["gen", "t"],
        texts: ["a\n", ""],
    };
    let reports_fail = Failing {
        reports: &[2],
        ..NOTHING_FAILS
    };
    let end = End {
        err: "t:1: error: G9 w",
        ..IS_REFUSED
    };
    check(&rt, &broken, reports_fail, 2, &end);
}

/// An empty file is read in two calls; the third makes the output, and each one behind it adds 16 bytes.
#[test]
fn a_write_fault_leaves_the_file_as_it_is(rt: HostRuntime) {
    let table: &[(u64, End)] = &[
        (1, T_IS_NOT_READ),
        (2, T_IS_NOT_READ),
        (3, NOTHING_IS_WRITTEN),
        (
            4,
            End {
                left: Some(""),
                ..NOTHING_IS_WRITTEN
            },
        ),
        (
            5,
            End {
                left: Some("/* Made from pat"),
                ..NOTHING_IS_WRITTEN
            },
        ),
    ];
    check_calls(&rt, &GEN_TO_O, table);
}

#[test]
fn a_file_without_room_is_a_write_fault(rt: HostRuntime) {
    let other = Asked {
        words: &["gen", "-o", "p", "t"],
        ..GEN_TO_O
    };
    check(&rt, &other, NOTHING_FAILS, 0, &NOTHING_IS_WRITTEN);
}

#[test]
fn stops_say_why_there_is_no_text(rt: HostRuntime) -> Result<(), Fail> {
    let alloc = rt.alloc();
    let table = [
        (Stop::ReadFault(Vec::new(alloc)), "an input cannot be read"),
        (Stop::Refused(Vec::new(alloc)), "an input breaks a rule"),
        (Stop::NoMemory, "out of memory"),
    ];
    for (stop, text) in table {
        assert!(rt; format!(in alloc; "{stop}")?.as_str() == text, "{text}");
    }
    Ok(())
}
