//! Lines of justice and of fairness, which are not written out.
ghost use Rattle.std.specs.Prelude.{◌≡◌, map, false, OnOk, IfErr, IfSome};
ghost use Rattle.std.specs.Option.{IfNone};
ghost use Rattle.fullmodel.specs.Lines.{line_of, says_of};
ghost use Rattle.writeout.specs.Faults.{is_live, IsLineFault, NoneIsLive, IsLiveFault};

use crate::fault::WriteFault;
use btor2::Body;
use fullmodel::{Line, Says};

/// Why a line is not written out for what it says.
fn live_fault(line: &Line) -> Option<WriteFault>
    ensures some { IfSome result (IsLineFault (line_of line.now)) }
    ensures none { IfNone result (is_live (says_of line.now.says) ≡ false) }
{
    match &line.says {
        Says::Form { body, .. } => match body {
            Body::Justice { .. } => Some(WriteFault::Justice(line.id)),
            Body::Fair { .. } => Some(WriteFault::Fair(line.id)),
            _ => None,
        },
        _ => None,
    }
}

/// The first line of justice or of fairness is refused.
pub(crate) fn first_live(lines: &[Line]) -> Result<(), WriteFault>
    ensures ok { OnOk result (NoneIsLive (map line_of lines.now)) }
    ensures err { IfErr result (IsLiveFault (map line_of lines.now)) }
{
    for line in lines {
        if let Some(fault) = live_fault(line) {
            return Err(fault);
        }
    }
    Ok(())
}
