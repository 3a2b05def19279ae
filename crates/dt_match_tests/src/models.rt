//! Models of small files.

ghost use Rattle.std.specs.Prelude.{◌≤◌, IfOk, length};
ghost use Rattle.dt_model.specs.Sound.{IsSound};
ghost use Rattle.dt_model.specs.Options.{IsOptions};

use dt_forms::{Source, read_model};
use dt_model::{Model, Options};
use dt_values::{Name, Width};
use std::alloc::Global;
use std::test::Fail;

pub const SHIFTS: &str = "\
{
  {
    nop   000010 ----- ----- 0000 001001 0 00000
    copy  000010 00000 r1:5  0000 001001 0 rt:5
  }
  or      000010 rt2:5 r1:5  cf:4 001001 0 rt:5
}
";

pub const NESTED: &str = "\
{
  [
    x 00000000 00000000
    y 00000000 00000001
  ]
  z 00000000 --------
}
";

pub const SIZES: &str = "\
%v 0:8 !function=f
p 00000000 ........ %v
q 00000000 ........ %v
";

pub fn name(bytes: &[u8]) -> Result<Name, Fail> {
    let name = Name::from_bytes(bytes).ok_or("a name")?;
    Ok(name)
}

fn options(width: Width) -> Options
    ensures { IsOptions result }
{
    Options {
        width,
        ..Options::default()
    }
}

// The model of one small file.
fn model_of(alloc: Global, width: Width, text: &[u8]) -> Result<Model, Fail>
    requires { length text.now ≤ 1000 }
    ensures { IfOk result IsSound }
{
    let files = [Source::read(alloc, 0, Vec::from_slice(alloc, text)?)?];
    match read_model(alloc, &options(width), files.as_slice()) {
        Ok(model) => Ok(model),
        Err(_) => Err("no model".into()),
    }
}

/// The model of a file of at most 1,000 bytes.
pub fn model(alloc: Global, width: Width, text: &str) -> Result<Model, Fail>
    ensures { IfOk result IsSound }
{
    let bytes = text.as_bytes();
    if bytes.len() > 1000 {
        return Err("a long file".into());
    }
    model_of(alloc, width, bytes)
}
