//! Why a catalogue's file is refused.

ghost use Rattle.std.specs.Prelude.{◌≡◌};
ghost use Rattle.br_catalog_rows.specs.Fault.{fault_number};
ghost use Rattle.br_keeper.specs.Catalogue.{catalogue_number};
ghost use Rattle.br_store.specs.Look.{look_number};

use br_keeper::CatalogueFault;
use br_store::{LookFault, StoreFault};

/// Returns the fault of looking at a catalogue's file, as a fault of a catalogue.
pub(crate) fn look_fault(fault: LookFault) -> CatalogueFault
    ensures { catalogue_number result ≡ look_number fault }
{
    match fault {
        LookFault::Memory => CatalogueFault::Memory,
        LookFault::InUse | LookFault::Unreadable | LookFault::Database(_) => {
            CatalogueFault::Unreadable
        }
    }
}

/// Returns the fault of a catalogue's file as one of a catalogue.
pub(crate) fn catalogue_fault(fault: StoreFault) -> CatalogueFault
    ensures { catalogue_number result ≡ fault_number fault }
{
    match fault {
        StoreFault::Memory => CatalogueFault::Memory,
        StoreFault::Store(_) => CatalogueFault::Unreadable,
        StoreFault::BadCatalogue => CatalogueFault::BadCatalogue,
        StoreFault::OldCatalogue => CatalogueFault::OldCatalogue,
    }
}
