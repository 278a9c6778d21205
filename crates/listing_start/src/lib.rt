// What the listing program starts with: its settings and its validator.
#![tactic(auto)]

ghost use Rattle.std.specs.Prelude.{◌≡◌};
ghost use Rattle.listing_start.specs.Start.{list_settings, new_validator};

use filter::FilterOpt;
use scan_cdp::Settings;
use validators::{HeaderId, RdhCruSanityValidator};

// A validator with no version and no ITS, which has settled nothing.
pub fn new_validator() -> RdhCruSanityValidator
    ensures { result ≡ new_validator }
{
    RdhCruSanityValidator {
        header_id: HeaderId::NotSettled,
        its: false,
    }
}

// The listing program's settings: no filter, payload read, statistics on.
pub fn list_settings() -> Settings
    ensures { result ≡ list_settings }
{
    Settings {
        filter: FilterOpt::default(),
        skip_payload: false,
        stats: true,
    }
}
