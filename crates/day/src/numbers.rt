// The numbers that the answers stand for: 0 where the call was carried out, else the denial's. Each is a match, as a keeper's.
ghost use Rattle.day.specs.Numbers.{calculate_denial_number, position_denial_number, settle_denial_number, exclude_denial_number};

use crate::answer::{CalculateDenial, ExcludeDenial, PositionDenial, SettleDenial};
use keeper::Numbered;

impl Numbered for CalculateDenial {
    ghost number_in = { calculate_denial_number };

    fn number(&self) -> u8 {
        match self {
            CalculateDenial::WrongPhase => 2,
        }
    }
}

impl Numbered for PositionDenial {
    ghost number_in = { position_denial_number };

    fn number(&self) -> u8 {
        match self {
            PositionDenial::NoSuchHouse => 1,
            PositionDenial::WrongPhase => 2,
        }
    }
}

impl Numbered for SettleDenial {
    ghost number_in = { settle_denial_number };

    fn number(&self) -> u8 {
        match self {
            SettleDenial::WrongPhase => 2,
            SettleDenial::OtherHouses => 15,
            SettleDenial::NoSitting => 16,
            SettleDenial::Short { .. } => 17,
        }
    }
}

impl Numbered for ExcludeDenial {
    ghost number_in = { exclude_denial_number };

    fn number(&self) -> u8 {
        match self {
            ExcludeDenial::NoSuchHouse => 1,
            ExcludeDenial::WrongPhase => 2,
            ExcludeDenial::NotRemembered => 18,
        }
    }
}
