//! Why a line is not fitted.
ghost use Rattle.std.specs.Prelude.{◌≡◌};
ghost use Rattle.fitting.specs.Forms.{form_fault};

use btor2::Body;
use pieces::Shortage;

/// Why a line is not fitted.
#[derive(Clone, Copy, Debug, PartialEq, Eq)]
pub enum Unfitted {
    /// The narrow model has as many items as it may have, or a growth was refused.
    Short(Shortage),
    /// A line of fairness.
    Fair,
    /// A line of justice.
    Justice,
}

/// Why the form of a line keeps it from being fitted, if it does.
pub(crate) fn form_fault(body: &Body) -> Option<Unfitted>
    ensures { result ≡ form_fault body.now }
{
    match body {
        Body::Fair { .. } => Some(Unfitted::Fair),
        Body::Justice { .. } => Some(Unfitted::Justice),
        Body::Sort { .. }
        | Body::Input { .. }
        | Body::State { .. }
        | Body::Zero { .. }
        | Body::One { .. }
        | Body::Ones { .. }
        | Body::Const { .. }
        | Body::Constd { .. }
        | Body::Consth { .. }
        | Body::Uext { .. }
        | Body::Sext { .. }
        | Body::Slice { .. }
        | Body::Unary { .. }
        | Body::Binary { .. }
        | Body::Concat { .. }
        | Body::Ite { .. }
        | Body::Init { .. }
        | Body::Next { .. }
        | Body::Bad { .. }
        | Body::Constraint { .. }
        | Body::Output { .. } => None,
    }
}
