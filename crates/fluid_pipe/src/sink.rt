//! Output that is written and handed on.
ghost use Rattle.fluid_io.specs.Causes.{HasExactCause};
ghost use Rattle.fluid_io.specs.Streams.{WriteAllDoes};

use fluid_io::{Failed, Sink, write_all};

/// Writes all of `bytes` and then flushes the sink; what a sink does then is its own matter, but for the bytes written,
/// which stay, and a fault. After a fault a part from their front was written, maybe none or all of them.
pub fn write_out<K: Sink>(sink: &mut K, bytes: &[u8]) -> Result<(), Failed>
    ensures cause { HasExactCause (K.seen sink.old).faults (K.seen sink.new).faults result }
    ensures does { WriteAllDoes (K.seen sink.old) (K.seen sink.new) bytes.now result }
{
    write_all(sink, bytes)?;
    sink.flush()?;
    Ok(())
}
