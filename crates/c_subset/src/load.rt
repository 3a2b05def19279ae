//! The load function of a program.

/// A block of the load function. It ends with `return insn;`.
#[derive(Drop)]
pub struct LoadBlock {
    /// `insn = F_load_bytes(ctx, insn, FROM, TO);` where bytes are loaded, with F the decoder's name.
    pub load: Option<(u32, u32)>,
    /// `switch (insn & MASK) { .. }` where there is one, with the mask and then the cases: each value with its block.
    pub switch: Option<(u64, Vec<(u64, LoadBlock)>)>,
}
