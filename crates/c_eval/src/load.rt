//! What the load function of a program does.

ghost use Rattle.std.specs.Prelude.{◌≡◌, ◌<◌, ◌≤◌, ◌-◌, ◌/◌, option_map, unwrap_or};
ghost use Rattle.c_eval.specs.Loads.{after_block, after_case, after_load, can_load, load_of, with_byte, with_bytes};
ghost use Rattle.c_eval.specs.LoadView.{load_cases_of, loaded_seen};
ghost use Rattle.c_subset.specs.View.{load_of as block_of, program_of};
ghost use Rattle.dt_values.specs.Widths.{width_bits};

use c_subset::{LoadBlock, Program};
use dt_values::{Width, deposit};

/// The bytes at the place of an instruction, and how many of them are loaded.
#[derive(Clone, Copy)]
pub struct Bytes {
    pub items: [u8; 8],
    pub loaded: u8,
}

/// The word so far, and how many bytes are loaded.
#[derive(Clone, Copy)]
pub struct Loaded {
    pub word: u64,
    pub bytes: u8,
}

/// The word that the load function of a program loads of these bytes, with how many were loaded. None where the program
/// has no load function, or its run is stuck; then the number of bytes stays as it was. The bytes always stay.
pub fn run_load(program: &Program, bytes: &mut Bytes) -> Option<u64>
    ensures word { result ≡ option_map (λ l. l.0) (load_of (program_of program.now) bytes.old.items) }
    ensures loaded { bytes.new.loaded
        ≡ unwrap_or (option_map (λ l. l.1) (load_of (program_of program.now) bytes.old.items)) bytes.old.loaded }
    ensures items { bytes.new.items ≡ bytes.old.items }
{
    match load(program, &bytes.items) {
        Some((word, loaded)) => {
            bytes.loaded = loaded;
            Some(word)
        }
        None => None,
    }
}

fn load(program: &Program, input: &[u8; 8]) -> Option<(u64, u8)>
    ensures { result ≡ load_of (program_of program.now) input.now }
{
    let start = Loaded { word: 0, bytes: 0 };
    match &program.load {
        Some(block) => match load_block(program.width, input, block, start) {
            Some(loaded) => Some((loaded.word, loaded.bytes)),
            None => None,
        },
        None => None,
    }
}

#[cycle(load)]
fn load_block(width: Width, input: &[u8; 8], block: &LoadBlock, at: Loaded) -> Option<Loaded>
    ensures { option_map loaded_seen result
        ≡ after_block (width_bits width) input.now (block_of block.now) (loaded_seen at) }
{
    match load_bytes(width, input, block.load, at) {
        Some(at) => match &block.switch {
            Some((mask, cases)) => load_case(width, input, at.word & *mask, cases, at),
            None => Some(at),
        },
        None => None,
    }
}

// The block of the first case of this value, if there is one.
#[cycle(load)]
fn load_case(
    width: Width,
    input: &[u8; 8],
    value: u64,
    cases: &[(u64, LoadBlock)],
    at: Loaded,
) -> Option<Loaded>
    ensures { option_map loaded_seen result
        ≡ after_case (width_bits width) input.now value (load_cases_of cases.now) (loaded_seen at) }
{
    for case in cases {
        if case.0 == value {
            return load_block(width, input, &case.1, at);
        }
    }
    Some(at)
}

// The bytes from one to another, where there are some. None where it is stuck.
fn load_bytes(
    width: Width,
    input: &[u8; 8],
    bytes: Option<(u32, u32)>,
    at: Loaded,
) -> Option<Loaded>
    ensures { option_map loaded_seen result ≡ after_load (width_bits width) input.now bytes (loaded_seen at) }
{
    let Some((from, to)) = bytes else {
        return Some(at);
    };
    if !can_load(width, at.bytes, from, to) {
        return None;
    }
    Some(Loaded {
        word: with_bytes(width, input, from, to, at.word),
        bytes: number_of_bytes(width, to),
    })
}

fn can_load(width: Width, loaded: u8, from: u32, to: u32) -> bool
    ensures { result ≡ can_load (width_bits width) loaded from to }
{
    from == u32::from(loaded) && from < to && to <= width.bits() / 8
}

fn number_of_bytes(width: Width, to: u32) -> u8
    requires { to ≤ width_bits width / 8 }
    ensures { result ≡ to }
{
    match width {
        Width::W16 => to as u8,
        Width::W32 => to as u8,
        Width::W64 => to as u8,
    }
}

fn with_bytes(width: Width, input: &[u8; 8], from: u32, to: u32, word: u64) -> u64
    requires some { from < to }
    requires room { to ≤ width_bits width / 8 }
    ensures { result ≡ with_bytes (width_bits width) input.now from (to - from) word }
{
    let mut word = word;
    for j in from..to {
        word = with_byte(width, input, j, word);
    }
    word
}

fn with_byte(width: Width, input: &[u8; 8], j: u32, word: u64) -> u64
    requires { j < width_bits width / 8 }
    ensures { result ≡ with_byte (width_bits width) input.now j word }
{
    let place = width.bits() - 8 * (j + 1);
    deposit(64, word, place, 8, u64::from(input[j as usize]))
}
