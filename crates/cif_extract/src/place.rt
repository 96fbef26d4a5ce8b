//! Where a record may stand.
ghost use Rattle.std.specs.Prelude.{◌≡◌};
ghost use Rattle.cif_extract.specs.OrderOfRecords.{after_further, may_stand};

use cif_records::Kind;

/// A place in an extract, by the record before it: one place for each row of the table of
/// docs/FORMAT.md, "Order of records".
#[derive(Clone, Copy)]
pub(crate) enum Place {
    /// The start of the input.
    Start,
    /// After HD or TI.
    Tiplocs,
    /// After AA.
    Associations,
    /// After the BS of a schedule that runs.
    Basic,
    /// After the BX of a schedule that runs.
    Extra,
    /// After the BS of a cancellation.
    Cancelled,
    /// After the BX of a cancellation.
    CancelledExtra,
    /// After LO, LI or CR.
    Journey,
    /// After LT.
    Schedules,
    /// After ZZ.
    Ended,
}

impl Place {
    /// Whether a record of this kind may stand here.
    pub(crate) fn allows(self, kind: Kind) -> bool
        ensures { result ≡ may_stand self kind }
    {
        match self {
            Place::Start => matches!(kind, Kind::Hd),
            Place::Tiplocs => matches!(
                kind,
                Kind::Ti | Kind::Ta | Kind::Td | Kind::Aa | Kind::Bs | Kind::Zz
            ),
            Place::Associations => matches!(kind, Kind::Aa | Kind::Bs | Kind::Zz),
            Place::Basic => matches!(kind, Kind::Bx | Kind::Lo),
            Place::Extra => matches!(kind, Kind::Lo),
            Place::Cancelled => matches!(kind, Kind::Bx | Kind::Lo | Kind::Bs | Kind::Zz),
            Place::CancelledExtra => matches!(kind, Kind::Lo | Kind::Bs | Kind::Zz),
            Place::Journey => matches!(kind, Kind::Li | Kind::Cr | Kind::Lt),
            Place::Schedules => matches!(kind, Kind::Bs | Kind::Zz),
            Place::Ended => false,
        }
    }

    /// The place after a BX, or after a location or a change on the way, where one may stand.
    pub(crate) fn after_further(self, kind: Kind) -> Place
        ensures { result ≡ after_further self kind }
    {
        match (kind, self) {
            (Kind::Bx, Place::Cancelled) => Place::CancelledExtra,
            (Kind::Bx, _) => Place::Extra,
            _ => Place::Journey,
        }
    }
}
