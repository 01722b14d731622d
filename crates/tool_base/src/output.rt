ghost use Rattle.tool_base.specs.Outputs.{WritesOutputs, outputs_seen};

use pir_io::{Files, IoFault, write_file};

/// A file that a command writes: its name and the bytes that it is to hold.
#[derive(Clone, Copy, Debug)]
pub struct Output<'a> {
    pub name: &'a str,
    pub bytes: &'a [u8],
}

/// Writes outputs one after the other, up to the first that can't be written.
pub fn write_outputs<F: Files>(files: &mut F, outputs: &[Output<'_>]) -> Result<(), IoFault>
    ensures { WritesOutputs (F.seen files.old) (F.seen files.new) (outputs_seen outputs.now) result }
{
    for output in outputs {
        write_file(files, output.name, output.bytes)?;
    }
    Ok(())
}
