// What a clearing day is opened with: its date and currency, the clearing's own BIC, and the houses with their BICs.
// Checking a file and composing a payment go by the same. Knows nothing of messages, records or phases.

#![tactic(auto)]

mod answers;
mod building;
mod directory;
mod house;
mod opening;
mod places;
mod questions;
mod rules;
mod settings;

pub use answers::OpenDenial;
pub use opening::{HouseEntry, Opening};
pub use settings::Settings;

#[cfg(test)]
mod tests {
    use super::*;
    use keys::Bic;
    use std::test::Fail;

    // The settings of a leap day, if they may be opened.
    fn opened<'a>(
        rt: &HostRuntime,
        houses: &'a [HouseEntry<'a>],
        clearing: &'a [u8],
        currency: &'a [u8],
    ) -> Result<Settings, OpenDenial> {
        let opening = Opening {
            year: 2024,
            month: 2,
            day: 29,
            currency,
            clearing,
            houses,
        };
        Settings::open(rt.alloc(), &opening)
    }

    #[test]
    fn houses_are_found(rt: HostRuntime) -> Result<(), Fail> {
        let houses = [
            HouseEntry {
                bic: b"CCCCLV22",
                suspended: false,
            },
            HouseEntry {
                bic: b"AAAALV22",
                suspended: true,
            },
        ];
        let settings = opened(&rt, &houses, b"HOUSLV22", b"EUR")?;
        let bic = Bic::read(b"AAAALV22").ok_or("no BIC")?;
        assert!(rt; settings.house_count() == 2);
        assert!(rt; settings.place_of(bic) == Some(1));
        assert!(rt; settings.place_of(settings.clearing()).is_none());
        assert!(rt; settings.is_suspended(1) && !settings.is_suspended(0));
        Ok(())
    }
}
