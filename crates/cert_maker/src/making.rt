//! The certificate of a solid.

ghost use Rattle.std.specs.Prelude.{◌≡◌, ℕ, ◌∷◌, ◌++◌, [], IfOk, IfErr, OnOk};
ghost use Rattle.iges_params.specs.Contents.{Contents};
ghost use Rattle.brep_walk.specs.Places.{places};
ghost use Rattle.brep_walk.specs.SolidOf.{solid_of};
ghost use Rattle.solid_data.specs.Obligations.{AllHold, FirstFalse};
ghost use Rattle.solid_data.specs.declared.verdict.Failing.{Failing as Named};
ghost use Rattle.shell_rules.specs.ShellObligations.{solid_obligations};
ghost use Rattle.cert_lines.specs.declared.version.Version.TheVariants.{Two as EditionTwo};
ghost use Rattle.cert_lines.specs.Written.{certificate_lines, text_of};
ghost use Rattle.cert_accept.specs.Accepted.{IsAccepted};
ghost use Rattle.shell_rules.specs.Faults.{IsCheckFault, IsNoMemory, FailsSo};
ghost use Rattle.cert_maker.specs.Certified.{IsCertificate};
ghost use Rattle.cert_maker.specs.Certified.{IsCertificateText};
ghost use Rattle.cert_maker.specs.Certified.{AreParts};

use crate::fault::MakeFault;
use crate::shell_part::shell_part;
use edge_uses::VerticesBefore;
use iges_base::NoMemory;
use shell_rules::shell_at;
use solid_data::{ShellAt, Solid};
use std::alloc::Global;
use topo_certificate::{Certificate, ShellPart, ShellParts, Version};

fn push_part(parts: &mut ShellParts, part: ShellPart) -> Result<(), NoMemory>
    ensures { OnOk result (parts.new ≡ parts.old ++ part ∷ []) }
{
    parts.push(part)
}

/// The parts of the shells of a closed solid, in order.
fn shell_parts(alloc: Global, solid: &Solid) -> Result<ShellParts, MakeFault>
    ensures parts { IfOk result (AreParts solid.now solid.now.shells) }
    ensures holds { OnOk result (AllHold (solid_obligations solid.now)) }
    ensures fails { IfErr result (IsCheckFault (solid_obligations solid.now)) }
{
    let mut parts = ShellParts::new(alloc);
    let mut before = VerticesBefore::none();
    'shells: for k in 0..solid.shell_count() {
        let at = ShellAt(k as u32);
        let shell = shell_at(solid, at);
        let (part, with) = shell_part(alloc, solid, at, shell, before)?;
        push_part(&mut parts, part)?;
        before = with;
    }
    Ok(parts)
}

/// The certificate of a closed solid, of version 2, or the first rule on its shells that fails, with the entity and its item that
/// break it: shell by shell JOIN of the loops, PAIR of the edges, REACH of the faces, LINK and then APART of the
/// vertices, by rising number. For each file whose solid this is, its text is accepted, and the one text that may be
/// made of it.
pub fn certify(alloc: Global, solid: &Solid) -> Result<Certificate, MakeFault>
    ensures certificate { IfOk result (IsCertificate solid.now) }
    ensures text { IfOk result (λ c. (f : Contents) (n : ℕ) → solid.now ≡ solid_of f n
        → IsCertificateText f n (text_of (certificate_lines c))) }
    ensures accepted { IfOk result (λ c. (f : Contents) (n : ℕ) → AllHold (places f n)
        → solid.now ≡ solid_of f n → IsAccepted f (text_of (certificate_lines c)) EditionTwo (n
        ∷ [])) }
    ensures holds { OnOk result (AllHold (solid_obligations solid.now)) }
    ensures fault { IfErr result (IsCheckFault (solid_obligations solid.now)) }
    ensures only { AllHold (solid_obligations solid.now) → IfErr result IsNoMemory }
    ensures only_fault { (x : Named) → FirstFalse (solid_obligations solid.now) x
        → FailsSo x result }
{
    let shells = shell_parts(alloc, solid)?;
    Ok(Certificate {
        version: Version::Two,
        solid: solid.entity(),
        shells,
    })
}
