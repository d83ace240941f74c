//! Plans: which images a vehicle gets, or why it gets none.
ghost use Rattle.std.specs.Prelude.{◌≡◌, [], None, IfOk, IsOk};

use std::alloc::{AllocError, Global};
use up_canon::file_name::FileName;
use up_canon::ident::Ident;
use up_canon::listed::{Duplicate, Listed};
use up_manifest::report::Installed;

/// An ECU of a vehicle with the image that it reports.
#[derive(Debug, Drop)]
pub struct Fitted {
    pub ecu: Ident,
    pub hardware: Ident,
    pub image: Installed,
}

impl Duplicate for Fitted {
    fn copy(&self, alloc: Global) -> Result<Fitted, AllocError> {
        Ok(Fitted {
            ecu: self.ecu.copy(alloc)?,
            hardware: self.hardware.copy(alloc)?,
            image: self.image.copy(alloc)?,
        })
    }
}

/// An image that is assigned to an ECU.
#[derive(Debug, Drop)]
pub struct Assigned {
    pub ecu: Ident,
    pub file: FileName,
}

impl Duplicate for Assigned {
    fn copy(&self, alloc: Global) -> Result<Assigned, AllocError> {
        Ok(Assigned {
            ecu: self.ecu.copy(alloc)?,
            file: self.file.copy(alloc)?,
        })
    }
}

/// Why the wanted images of a vehicle are withheld: an ECU's image has a need that isn't met, or a conflict with a file.
#[derive(Debug, Drop)]
pub enum Cause {
    Need { ecu: Ident, hardware: Ident },
    Conflict { ecu: Ident, file: FileName },
}

impl Duplicate for Cause {
    fn copy(&self, alloc: Global) -> Result<Cause, AllocError> {
        match self {
            Cause::Need { ecu, hardware } => Ok(Cause::Need {
                ecu: ecu.copy(alloc)?,
                hardware: hardware.copy(alloc)?,
            }),
            Cause::Conflict { ecu, file } => Ok(Cause::Conflict {
                ecu: ecu.copy(alloc)?,
                file: file.copy(alloc)?,
            }),
        }
    }
}

/// The images assigned to a vehicle in inventory order, and the cause where they are withheld.
#[derive(Debug, Drop)]
pub struct Plan {
    pub assigned: Listed<Assigned>,
    pub withheld: Option<Cause>,
}

impl Plan {
    ghost use Rattle.std.specs.Prelude.{◌≡◌, [], None, IfOk, IsOk};

    /// An equal one of its own memory; of a plan of nothing it takes none.
    pub fn copy(&self, alloc: Global) -> Result<Plan, AllocError>
        ensures copied { IfOk result (λ copied. copied ≡ self.now) }
        ensures none { self.now.assigned ≡ [] → self.now.withheld ≡ None → IsOk result }
    {
        Ok(Plan {
            assigned: copy_assigned(alloc, &self.assigned)?,
            withheld: copy_cause(alloc, &self.withheld)?,
        })
    }
}

fn copy_assigned(alloc: Global, assigned: &Listed<Assigned>) -> Result<Listed<Assigned>, AllocError>
    ensures copied { IfOk result (λ copied. copied ≡ assigned.now) }
    ensures none { assigned.now ≡ [] → IsOk result }
{
    if assigned.as_slice().is_empty() {
        return Ok(Listed::new(Vec::new(alloc)));
    }
    assigned.copy(alloc)
}

fn copy_cause(alloc: Global, withheld: &Option<Cause>) -> Result<Option<Cause>, AllocError>
    ensures copied { IfOk result (λ copied. copied ≡ withheld.now) }
    ensures none { withheld.now ≡ None → IsOk result }
{
    match withheld {
        Some(cause) => Ok(Some(cause.copy(alloc)?)),
        None => Ok(None),
    }
}
