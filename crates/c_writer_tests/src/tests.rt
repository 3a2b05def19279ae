//! Pattern files with the texts of their decoders: with options other than the usual ones, with argument sets of each
//! kind, and with patterns that have values of their own beside those of their format (docs/C_SUBSET.md, "The text").

ghost use Rattle.std.specs.Prelude.{◌≡◌, [], All, IfOk, vec_len};
ghost use Rattle.dt_model.specs.Options.{IsOptions};
ghost use Rattle.dt_model.specs.Models.{definitions_in};
ghost use Rattle.c_fields.specs.Values.{HasRoom};
ghost use Rattle.c_writer.specs.Within.{AreWithin, FormatHasRoom, HaveValuesRoom, PatternHasRoom};

use c_writer::text::{layout, text};
use dt_fields::{FieldDef, Segment, Segments};
use dt_forms::{Source, read_model};
use dt_lines::LARGEST_FILE;
use dt_model::{
    Entry, EntryList, FieldValue, Format, FormatList, Model, Options, Pattern, PatternList,
    SetList, ValueList,
};
use dt_values::{CType, Member, MemberList, Name, SetDef, Width};
use std::alloc::Global;
use std::process::Abort;
use std::test::Fail;

fn options_at(width: Width) -> Options
    ensures { IsOptions result }
{
    Options {
        width,
        ..Options::default()
    }
}

fn check_text(
    rt: &(impl Abort + AllocGlobal),
    options: &Options,
    file: &str,
    wanted: &str,
) -> Result<(), Fail>
    requires { IsOptions options.now }
{
    if file.len() > LARGEST_FILE {
        return Err("too long".into());
    }
    let bytes = Vec::from_slice(rt.alloc(), file.as_bytes())?;
    let files = [Source::read(rt.alloc(), 0, bytes)?];
    let model = read_model(rt.alloc(), options, files.as_slice())?;
    let written = text(rt.alloc(), &model, options)?;
    assert!(rt; written.as_slice() == wanted.as_bytes(), "{file}");
    Ok(())
}

const WRITTEN: &str = "/* Made from pattern files. */

typedef struct {
} arg_decode_a160;

typedef arg_decode_a160 arg_nop;
bool arm_nop(DisasContext *ctx, arg_nop *a);

typedef arg_decode_a160 arg_any;
bool arm_any(DisasContext *ctx, arg_any *a);

static void decode_a16_extract_decode_a16_Fmt_0(DisasContext *ctx, arg_decode_a160 *a, uint16_t insn)
{
}

bool decode_a16(DisasContext *ctx, uint16_t insn)
{
    union {
        arg_decode_a160 f_decode_a160;
    } u;

    if ((insn & 0xffff) == 0xbf00) {
        /* 1:1 */
        decode_a16_extract_decode_a16_Fmt_0(ctx, &u.f_decode_a160, insn);
        if (arm_nop(ctx, &u.f_decode_a160)) return true;
    }
    /* 1:2 */
    decode_a16_extract_decode_a16_Fmt_0(ctx, &u.f_decode_a160, insn);
    if (arm_any(ctx, &u.f_decode_a160)) return true;
    return false;
}
";

fn other_options() -> Options
    ensures { IsOptions result }
{
    Options {
        width: Width::W16,
        variable: false,
        decode: Name::from_bytes(b"decode_a16").unwrap(),
        decode_static: false,
        translate: Name::from_bytes(b"arm").unwrap(),
        translate_static: false,
    }
}

#[test]
fn names_widths_and_scopes_are_those_of_the_options(rt: HostRuntime) -> Result<(), Fail> {
    let file = "nop 1011111100000000\nany ----------------\n";
    check_text(&rt, &other_options(), file, WRITTEN)
}

fn check_texts(rt: &(impl Abort + AllocGlobal), table: &[(Width, &str, &str)]) -> Result<(), Fail> {
    for (width, file, wanted) in table {
        check_text(rt, &options_at(*width), file, wanted)?;
    }
    Ok(())
}

const WITH_SETS: &str = "/* Made from pattern files. */

typedef struct {
    int rd;
    uint64_t imm;
} arg_r;

typedef arg_empty arg_nop;
static bool trans_nop(DisasContext *ctx, arg_nop *a);

static void decode_extract_used(DisasContext *ctx, arg_empty *a, uint32_t insn)
{
}

static bool decode(DisasContext *ctx, uint32_t insn)
{
    union {
        arg_empty f_empty;
    } u;

    if ((insn & 0xffffffff) == 0x00000000) {
        /* 1:5 */
        decode_extract_used(ctx, &u.f_empty, insn);
        if (trans_nop(ctx, &u.f_empty)) return true;
    }
    return false;
}
";

// A set that no pattern uses, and one that is declared elsewhere.
const SETS_FILE: &str = "&r rd imm:uint64_t
&empty !extern
@other rd:5 imm:27 &r
@used ................................ &empty
nop 00000000000000000000000000000000 @used
";

#[test]
fn sets_are_declared_with_their_arguments_or_elsewhere(rt: HostRuntime) -> Result<(), Fail> {
    check_texts(&rt, &[(Width::W32, SETS_FILE, WITH_SETS)])
}

const WITH_VALUES: &str = "/* Made from pattern files. */

typedef struct {
    int rd;
    uint64_t imm;
} arg_r;

typedef arg_r arg_movi;
static bool trans_movi(DisasContext *ctx, arg_movi *a);

static void decode_extract_moves(DisasContext *ctx, arg_r *a, uint32_t insn)
{
    a->rd = extract32(insn, 7, 5);
    a->imm = -3;
}

static bool decode(DisasContext *ctx, uint32_t insn)
{
    union {
        arg_r f_r;
    } u;

    if ((insn & 0xfffff07f) == 0x00000000) {
        /* 1:5 */
        decode_extract_moves(ctx, &u.f_r, insn);
        if (trans_movi(ctx, &u.f_r)) return true;
    }
    return false;
}
";

const VALUES_FILE: &str = "&r rd imm:uint64_t
&empty !extern
%rd 7:5
@moves ................................ &r imm=-3 rd=%rd
movi 00000000000000000000.....0000000 @moves
";

#[test]
fn an_extraction_assigns_in_the_order_of_the_set(rt: HostRuntime) -> Result<(), Fail> {
    check_texts(&rt, &[(Width::W32, VALUES_FILE, WITH_VALUES)])
}

// A model that no file has: all bits of its pattern are fixed, those of a field too.
const WITH_VALUES_MADE: &str = "/* Made from pattern files. */

typedef struct {
    int rd;
    uint64_t imm;
} arg_r;

typedef arg_r arg_movi;
static bool trans_movi(DisasContext *ctx, arg_movi *a);

static void decode_extract_moves(DisasContext *ctx, arg_r *a, uint32_t insn)
{
    a->rd = extract32(insn, 7, 5);
    a->imm = -3;
}

static bool decode(DisasContext *ctx, uint32_t insn)
{
    union {
        arg_r f_r;
    } u;

    if ((insn & 0xffffffff) == 0x00000000) {
        /* 1:5 */
        decode_extract_moves(ctx, &u.f_r, insn);
        if (trans_movi(ctx, &u.f_r)) return true;
    }
    return false;
}
";

fn name(rt: &impl Abort, bytes: &[u8]) -> Name {
    Name::from_bytes(bytes).expect(rt, "a name")
}

// A set of two arguments, and one that is declared elsewhere.
fn sets(rt: &(impl Abort + AllocGlobal)) -> Result<Vec<SetDef>, Fail>
    ensures { IfOk result (λ sets. vec_len sets ≡ 2) }
{
    let members = vec![in rt.alloc();
        Member {
            ctype: CType::Int,
            name: name(rt, b"rd")
        },
        Member {
            ctype: CType::U64,
            name: name(rt, b"imm")
        },
    ]?;
    let declared = SetDef {
        name: name(rt, b"r"),
        members: MemberList::of(members),
        outside: false,
    };
    let elsewhere = SetDef {
        name: name(rt, b"empty"),
        members: MemberList::of(Vec::new(rt.alloc())),
        outside: true,
    };
    Ok(vec![in rt.alloc(); declared, elsewhere]?)
}

fn register(alloc: Global) -> Result<FieldValue, Fail>
    ensures { IfOk result (λ value. HasRoom 32 value) }
{
    let mut segments = Segments::new(alloc);
    segments.push(Segment::Bits {
        pos: 7,
        length: 5,
        signed: false,
    })?;
    Ok(FieldValue::Field(FieldDef {
        segments,
        function: None,
    }))
}

// What the arguments of the first set get, the last of them first.
fn values(rt: &(impl Abort + AllocGlobal)) -> Result<Vec<(Name, FieldValue)>, Fail>
    ensures { IfOk result (λ values. HaveValuesRoom 32 values.items) }
{
    let constant = (name(rt, b"imm"), FieldValue::Constant(-3));
    let field = (name(rt, b"rd"), register(rt.alloc())?);
    Ok(vec![in rt.alloc(); constant, field]?)
}

fn format(rt: &(impl Abort + AllocGlobal)) -> Result<Format, Fail>
    ensures set { IfOk result (λ format. format.set ≡ 0) }
    ensures room { IfOk result (FormatHasRoom 32) }
{
    let values = values(rt)?;
    Ok(Format {
        name: name(rt, b"moves"),
        set: 0,
        bits: 32,
        fixed_bits: 0,
        fixed_mask: 0,
        ignored: 0,
        values: ValueList::of(values),
    })
}

fn pattern(rt: &(impl Abort + AllocGlobal)) -> Pattern
    ensures format { result.format ≡ 0 }
    ensures values { result.values ≡ [] }
{
    Pattern {
        name: name(rt, b"movi"),
        file: 0,
        line: 5,
        format: 0,
        bits: 32,
        fixed_bits: 0,
        fixed_mask: 0xffff_ffff,
        ignored: 0,
        values: ValueList::of(Vec::new(rt.alloc())),
    }
}

fn model_with_values(rt: &(impl Abort + AllocGlobal)) -> Result<Model, Fail>
    ensures within { IfOk result (λ model. AreWithin (definitions_in model)) }
    ensures room { IfOk result (λ model. All (FormatHasRoom 32) model.formats) }
    ensures own_room { IfOk result (λ model. All (PatternHasRoom 32) model.patterns) }
{
    let alloc = rt.alloc();
    Ok(Model {
        width: Width::W32,
        variable: false,
        sets: SetList::of(sets(rt)?),
        formats: FormatList::of(vec![in alloc; format(rt)?]?),
        patterns: PatternList::of(vec![in alloc; pattern(rt)]?),
        entries: EntryList::of(vec![in alloc; Entry::One(0)]?),
    })
}

#[test]
fn a_model_made_by_hand_is_written_in_the_order_of_the_set(rt: HostRuntime) -> Result<(), Fail> {
    let model = model_with_values(&rt)?;
    let written = layout(rt.alloc(), &model, &Options::default())?;
    assert!(rt; written.as_slice() == WITH_VALUES_MADE.as_bytes());
    Ok(())
}

const HELPERS_OF_64: &str = "/* Made from pattern files. */

typedef struct {
    int k;
    int i;
} arg_decode0;

typedef arg_decode0 arg_q;
static bool trans_q(DisasContext *ctx, arg_q *a);

static void decode_extract_decode_Fmt_0(DisasContext *ctx, arg_decode0 *a, uint64_t insn)
{
    a->k = extract64(insn, 7, 56);
    a->i = (int64_t)deposit64(extract64(insn, 0, 7), 7, 57, sextract64(insn, 63, 1));
}

static bool decode(DisasContext *ctx, uint64_t insn)
{
    union {
        arg_decode0 f_decode0;
    } u;

    /* 1:2 */
    decode_extract_decode_Fmt_0(ctx, &u.f_decode0, insn);
    if (trans_q(ctx, &u.f_decode0)) return true;
    return false;
}
";

const HELPERS_OF_32: &str = "/* Made from pattern files. */

typedef struct {
    int k;
    int w;
} arg_decode0;

typedef arg_decode0 arg_p;
static bool trans_p(DisasContext *ctx, arg_p *a);

static void decode_extract_decode_Fmt_0(DisasContext *ctx, arg_decode0 *a, uint16_t insn)
{
    a->k = sextract32(insn, 8, 6);
    a->w = deposit32(extract32(insn, 4, 4), 4, 28, extract32(insn, 0, 4));
}

static bool decode(DisasContext *ctx, uint16_t insn)
{
    union {
        arg_decode0 f_decode0;
    } u;

    if ((insn & 0xc000) == 0x8000) {
        /* 1:2 */
        decode_extract_decode_Fmt_0(ctx, &u.f_decode0, insn);
        if (trans_p(ctx, &u.f_decode0)) return true;
    }
    return false;
}
";

#[test]
fn helpers_have_64_bits_at_64_bits_alone(rt: HostRuntime) -> Result<(), Fail> {
    check_texts(
        &rt,
        &[
            (
                Width::W64,
                "%i 63:s1 0:7\nq . k:56 ....... %i\n",
                HELPERS_OF_64,
            ),
            (
                Width::W16,
                "%v 0:4 4:4\np 10 k:s6 ........ w=%v\n",
                HELPERS_OF_32,
            ),
        ],
    )
}

const OWN_AT_32_BITS: &str = "/* Made from pattern files. */

typedef struct {
    int rd;
    int64_t imm;
    uint8_t size;
    int low;
} arg_shift;

typedef arg_shift arg_slli;
static bool trans_slli(DisasContext *ctx, arg_slli *a);

static void decode_extract_sh(DisasContext *ctx, arg_shift *a, uint32_t insn)
{
    a->rd = extract32(insn, 7, 5);
    a->size = 2;
}

static bool decode(DisasContext *ctx, uint32_t insn)
{
    union {
        arg_shift f_shift;
    } u;

    if ((insn & 0x0000e000) == 0x00004000) {
        /* 1:5 */
        decode_extract_sh(ctx, &u.f_shift, insn);
        u.f_shift.imm = -3;
        u.f_shift.low = sextract32(insn, 0, 4);
        if (trans_slli(ctx, &u.f_shift)) return true;
    }
    return false;
}
";

const OWN_AT_64_BITS: &str = "/* Made from pattern files. */

typedef struct {
    int rd;
    int64_t imm;
    uint8_t size;
    int low;
} arg_shift;

typedef arg_shift arg_slli;
static bool trans_slli(DisasContext *ctx, arg_slli *a);

static void decode_extract_sh(DisasContext *ctx, arg_shift *a, uint64_t insn)
{
    a->rd = extract64(insn, 7, 5);
    a->size = 2;
}

static bool decode(DisasContext *ctx, uint64_t insn)
{
    union {
        arg_shift f_shift;
    } u;

    if ((insn & 0x000000000000e000) == 0x0000000000004000) {
        /* 1:5 */
        decode_extract_sh(ctx, &u.f_shift, insn);
        u.f_shift.imm = -3;
        u.f_shift.low = (int64_t)deposit64(extract64(insn, 7, 5), 5, 59, sextract64(insn, 0, 4));
        if (trans_slli(ctx, &u.f_shift)) return true;
    }
    return false;
}
";

const OWN_AT_16_BITS: &str = "/* Made from pattern files. */

typedef struct {
    int rd;
    int64_t imm;
    uint8_t size;
    int low;
} arg_shift;

typedef arg_shift arg_slli;
static bool trans_slli(DisasContext *ctx, arg_slli *a);

static void decode_extract_sh(DisasContext *ctx, arg_shift *a, uint16_t insn)
{
    a->rd = extract32(insn, 7, 5);
    a->size = 2;
}

static bool decode(DisasContext *ctx, uint16_t insn)
{
    union {
        arg_shift f_shift;
    } u;

    /* 1:5 */
    decode_extract_sh(ctx, &u.f_shift, insn);
    u.f_shift.imm = -3;
    u.f_shift.low = sextract32(insn, 0, 4);
    if (trans_slli(ctx, &u.f_shift)) return true;
    return false;
}
";

// The format gives the first and the third argument a field and a constant. The pattern gives the other two a field and
// a constant, the last of them first.
const OWN_FILE_AT_32_BITS: &str = "&shift rd imm:int64_t size:uint8_t low
%rd 7:5
%low 0:s4
@sh ................................ &shift rd=%rd size=2
slli ----------------010-.....---.... @sh low=%low imm=-3
";

const OWN_FILE_AT_64_BITS: &str = "&shift rd imm:int64_t size:uint8_t low
%rd 7:5
%low 0:s4 7:5
@sh ................................................................ &shift rd=%rd size=2
slli ------------------------------------------------010-.....---.... @sh low=%low imm=-3
";

const OWN_FILE_AT_16_BITS: &str = "&shift rd imm:int64_t size:uint8_t low
%rd 7:5
%low 0:s4
@sh ................ &shift rd=%rd size=2
slli ----.....---.... @sh low=%low imm=-3
";

#[test]
fn own_values_are_assigned_behind_the_extraction_in_the_order_of_the_set(
    rt: HostRuntime,
) -> Result<(), Fail> {
    check_texts(
        &rt,
        &[
            (Width::W32, OWN_FILE_AT_32_BITS, OWN_AT_32_BITS),
            (Width::W64, OWN_FILE_AT_64_BITS, OWN_AT_64_BITS),
            (Width::W16, OWN_FILE_AT_16_BITS, OWN_AT_16_BITS),
        ],
    )
}
