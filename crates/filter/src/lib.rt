// The filter of a scan: which headers are handed out, as the Rust's `FilterOpt` and `FilterTarget` say.
#![tactic(auto)]

ghost use Rattle.std.specs.Prelude.{◌≡◌};
ghost use Rattle.filter.specs.Filter.{target_of, enabled, matches};

// The filters of the settings. Several may be set at once.
#[derive(Clone, Copy, Debug, Default, PartialEq, Eq)]
pub struct FilterOpt {
    pub filter_link: Option<u8>,
    pub filter_fee: Option<u16>,
    pub filter_its_stave: Option<u16>,
}

// What a header is compared with: `All` where no filter is set, which the Rust has as `None`.
#[derive(Clone, Copy, Debug, PartialEq, Eq)]
pub enum FilterTarget {
    Link(u8),
    Fee(u16),
    ItsLayerStave(u16),
    All,
}

// The filter that decides: the first of link, FEE id and stave that is set.
pub fn filter_target(opt: FilterOpt) -> FilterTarget
    ensures { result ≡ target_of opt }
{
    match (opt.filter_link, opt.filter_fee, opt.filter_its_stave) {
        (Some(link), _, _) => FilterTarget::Link(link),
        (None, Some(fee), _) => FilterTarget::Fee(fee),
        (None, None, Some(stave)) => FilterTarget::ItsLayerStave(stave),
        (None, None, None) => FilterTarget::All,
    }
}

// Whether any filter is set.
pub fn filter_enabled(opt: FilterOpt) -> bool
    ensures { result ≡ enabled opt }
{
    opt.filter_link.is_some() || opt.filter_fee.is_some() || opt.filter_its_stave.is_some()
}

// Whether a header with this link and this FEE id is taken. It gets the two numbers alone, since nothing else of a header is compared.
pub fn is_rdh_filter_target(link_id: u8, fee_id: u16, target: FilterTarget) -> bool
    ensures { result ≡ matches target link_id fee_id }
{
    match target {
        FilterTarget::Link(id) => link_id == id,
        FilterTarget::Fee(id) => fee_id == id,
        FilterTarget::ItsLayerStave(id) => its::is_match_feeid_layer_stave(fee_id, id),
        FilterTarget::All => true,
    }
}
