ghost use Rattle.xl_ports.specs.Sink.{Writes};

use crate::failed::Failed;
use crate::sink::Sink;

/// Writes all the bytes, in as many pieces as the sink takes them. `Failed` where a write failed: then a front of them
/// was written.
pub fn write_all<K: Sink>(sink: &mut K, bytes: &[u8]) -> Result<(), Failed>
    ensures { Writes K.held K.faults sink.old sink.new bytes.now result }
{
    let mut done = 0;
    while done < bytes.len() {
        done += sink.write(&bytes[done..])?;
    }
    Ok(())
}
