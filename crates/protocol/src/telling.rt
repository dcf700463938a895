// Each fault's number, layer, place and reason, and the fault of one layer inside that of the next.
ghost use Rattle.std.specs.Prelude.{◌≡◌};
ghost use Rattle.protocol.specs.Refusals.{equation_number, equations_refused, record_report, report_of};
ghost use Rattle.protocol.specs.Custodian.{custodian_report};
ghost use Rattle.protocol.specs.declared.fault.RecordFault.TheVariants.{Code};
ghost use Rattle.protocol.specs.declared.fault.CeremonyFault.TheVariants.{Record};
ghost use Rattle.protocol.specs.declared.fault.CustodianFault.TheVariants.{Ceremony};

use crate::fault::{CeremonyFault, CustodianFault, Equation, RecordFault};
use crate::report::{Layer, Report};
use group::fault::GroupFault;

// By hand: a derived From has no contract, and `?` needs it.
impl From<GroupFault> for RecordFault {
    ghost from_gives = { λ e r. r ≡ Code e };

    fn from(e: GroupFault) -> RecordFault {
        RecordFault::Code(e)
    }
}

impl From<RecordFault> for CeremonyFault {
    ghost from_gives = { λ e r. r ≡ Record e };

    fn from(e: RecordFault) -> CeremonyFault {
        CeremonyFault::Record(e)
    }
}

impl From<CeremonyFault> for CustodianFault {
    ghost from_gives = { λ e r. r ≡ Ceremony e };

    fn from(e: CeremonyFault) -> CustodianFault {
        CustodianFault::Ceremony(e)
    }
}

impl Equation {
    pub fn number(self) -> u8
        ensures { result ≡ equation_number self }
    {
        self as u8
    }
}

impl Report {
    // A report without a reason.
    fn new(number: u8, layer: Layer, place: usize) -> Report
        ensures { result ≡ record { number = number; layer = layer; place = place; reason = 0 } }
    {
        Report {
            number,
            layer,
            place,
            reason: 0,
        }
    }
}

impl RecordFault {
    pub fn report(self) -> Report
        ensures { result ≡ record_report self }
    {
        match self {
            RecordFault::Frame { place } => Report::new(1, Layer::Frame, place),
            RecordFault::Kind { place } => Report::new(2, Layer::Frame, place),
            RecordFault::Length { place } => Report::new(3, Layer::Frame, place),
            RecordFault::Code(fault) => Report {
                reason: fault.reason(),
                ..Report::new(9, Layer::Group, fault.place())
            },
        }
    }
}

impl CeremonyFault {
    pub fn report(self) -> Report
        ensures { result ≡ report_of self }
    {
        match self {
            CeremonyFault::Record(fault) => fault.report(),
            CeremonyFault::OutOfPhase { place } => Report::new(4, Layer::Ceremony, place),
            CeremonyFault::NoSeat { place } => Report::new(5, Layer::Ceremony, place),
            CeremonyFault::EqualSeats { place } => Report::new(6, Layer::Ceremony, place),
            CeremonyFault::Missing { place } => Report::new(7, Layer::Ceremony, place),
            CeremonyFault::Repeated { place } => Report::new(8, Layer::Ceremony, place),
            CeremonyFault::Unequal { place, equation } => Report {
                reason: equation.number(),
                ..Report::new(10, Layer::Ceremony, place)
            },
            CeremonyFault::FewReveals { place } => Report::new(11, Layer::Ceremony, place),
            CeremonyFault::Parameter { place } => Report::new(12, Layer::Ceremony, place),
            CeremonyFault::SmallArea => Report::new(13, Layer::Ceremony, 0),
            CeremonyFault::SmallOutput => Report::new(14, Layer::Custodian, 0),
        }
    }

    // How many equations were tested before the refusal.
    pub fn equations(self) -> u8
        ensures { result ≡ equations_refused self }
    {
        match self {
            CeremonyFault::Unequal { equation, .. } => equation.number(),
            _ => 0,
        }
    }
}

impl CustodianFault {
    pub fn report(self) -> Report
        ensures { result ≡ custodian_report self }
    {
        match self {
            CustodianFault::Ceremony(fault) => fault.report(),
            CustodianFault::TooSmall => Report::new(14, Layer::Custodian, 0),
            CustodianFault::Stranger { place } => Report::new(15, Layer::Custodian, place),
        }
    }
}
