//! Whether bytes spell records.
ghost use Rattle.std.specs.Prelude.{OnOk, IfErr};
ghost use Rattle.wire_base.specs.Charge.{charge};
ghost use Rattle.wire_base.specs.Field.{Fields};
ghost use Rattle.wire_base.specs.Limits.{Fits};
ghost use Rattle.wire_base.specs.Spells.{Spells};
ghost use Rattle.wire_read.specs.Budget.{read_limits};
ghost use Rattle.wire_read.specs.Faults.{IsFault};

use crate::event::Fault;
use crate::laws;
use crate::reader::Reader;
use wire_codec::DecodeContext;

/// Whether these bytes spell records within the limits, which are those of `Reader::within`; else
/// the fault, behind the longest front that spells records.
pub fn validate(bytes: &[u8], context: &DecodeContext) -> Result<(), Fault>
    ensures ok { OnOk result ((fs : Fields) × Spells fs bytes.now
        × Fits (charge fs) (read_limits context.now)) }
    ensures fault { IfErr result (IsFault (read_limits context.now) bytes.now) }
{
    laws::reader_begins();
    laws::reader_goes_on();
    laws::reader_moves_on();
    laws::reader_is_done();
    laws::reader_stops();
    let mut reader = Reader::within(context);
    while let Some(_event) = reader.next(bytes)? {}
    Ok(())
}
